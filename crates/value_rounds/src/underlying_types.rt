//! What declared types are defined as, through chains of names (Go specification, Underlying types).

mod laws;

pub use laws::chains_of_names_end;
