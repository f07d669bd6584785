//! Tables of types of values: no type is that of an untyped constant or of nil. Laws alone (Go
//! specification, Types; Constants).

mod laws;

pub use laws::tables_of_value_types;
