//! What a spec of constants or variables in a function declares, by the answers for its type and its
//! values (Go specification, Constant declarations; Variable declarations).

mod constants;
mod variables;

pub use constants::new_constants;
pub use variables::new_variables;
