//! Constants that share their spec with others: which header declares each, what it means, and what a step keeps of the
//! names of a package. Definitions and laws alone, without code (Go specification, Constant declarations; Iota;
//! Declarations and scope; Package block).

mod laws;

pub use laws::{
    groups_declare_their_constants, known_uses_stay, steps_keep_names, typed_constants_are_known,
};
