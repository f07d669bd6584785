//! Where the uses in a file come from in the file as read, by where they stand.

mod origins;
mod table;

pub use origins::use_origins;
pub use table::OriginTable;
