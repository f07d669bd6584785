//! That rules see operands alike whose untyped shifts have the same bounds: so what one rule gives
//! may be handed to the next. Laws alone (Go specification, Operators; Constant expressions).

mod laws;

pub use laws::{operators_see_alike, values_see_alike};
