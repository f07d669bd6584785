//! The program of a module that is read: its packages, the texts of their files, and the tables that a run looks at.

mod load;
mod marks;

pub use load::load_program;
