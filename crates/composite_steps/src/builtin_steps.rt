//! What calls of predeclared functions give of the operands that are their arguments (Go
//! specification, Built-in functions; Length and capacity; Making slices and maps; Allocation;
//! Appending to and copying slices; Deletion of map elements; Handling panics; Bootstrapping).

mod arguments;
mod calls;
mod elements;
mod lengths;
mod making;
mod printing;

pub use calls::builtin_call;
