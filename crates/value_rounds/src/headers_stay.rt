//! Headers are judged alike before methods are known and after: what a package declares besides methods
//! asks for none of them (Go specification, Declarations and scope; Constant expressions; Package
//! initialization; Method declarations). Laws alone.

mod laws;

pub use laws::headers_are_final;
