//! What constants are declared as in well-typed programs: definitions and laws alone, without code (Go specification,
//! Constant declarations; Declarations and scope; Predeclared identifiers).

mod laws;

pub use laws::constants_name_members;
