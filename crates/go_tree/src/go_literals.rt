//! What rune and string literals of Go source stand for (Go specification, Rune literals, String
//! literals).

mod digits;
mod escapes;
pub mod laws;
mod quotes;
mod runes;
mod strings;

pub use digits::digit_value;
pub use runes::rune_value;
pub use strings::string_value;
