//! Methods that are called in the block, tail or literal that a call becomes: by the types of what stands before
//! their dots, and not by their names (Go specification, Calls; Selectors; Method declarations; Method sets).

mod laws;

pub use laws::{
    arguments_are_apart, methods_are_apart, typed_method_steps_keep_cycles,
    typed_methods_come_through,
};
