//! Packages by numbers and their imports: the order in which they come, and cycles of imports.

pub mod cycles;
pub mod order;
mod ranks;
pub mod rows;
