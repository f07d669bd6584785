//! Types, signatures, lists of names and the ends of arguments, read of the tokens of a file from left to right.
#![tactic(auto)]

mod arguments;
mod cursor;
mod name_lists;
mod room;
mod signatures;
mod types;

pub use arguments::{ArgsEnd, args_end};
pub use cursor::Cursor;
use go_tree::NoMemory;
pub use name_lists::{name, names, qualifies, skip_names};
pub use room::Room;
pub use signatures::signature;
pub use types::type_expr;

/// What a production reads: its tree and the place after it, or nothing where the tokens ahead don't
/// begin with it.
pub type Reading<'a, T> = Result<Option<(T, Cursor<'a>)>, NoMemory>;
