//! Function literals, by the answer for the statements of their bodies: the type by the signature, the
//! block that declares the parameters, and what the literal is (Go specification, Function literals).

mod ends;
mod found;
mod laws;
mod operands;
mod params;
mod signatures;

pub use ends::end_params;
pub use found::{find_in_all, find_literals};
pub use laws::{literals_are_used, literals_refuse};
pub use operands::literal_operand;
pub use params::param_part;
pub use signatures::{literal_body, signature};
