//! What switches give of the answers for their tags and for the values of their cases (Go
//! specification, Expression switches).

mod cases;
mod tags;

pub use cases::are_cases;
pub use tags::tag;
