//! A file of Go source: from its bytes to its tokens, comments and tree, or to the first reason why it has none. What
//! is
//! asked on the way stands here too: whether a word isn't supported, and whether the tokens nest too deeply.
#![tactic(auto)]

mod decls;
mod file;
mod functions;
mod imports;
mod parser;
mod source;
mod types;

pub use go_nesting::{MAX_LIMIT, weight_over};
pub use go_scan::unsupported;
pub use parser::{ParseError, parse};
pub use source::{ReadError, Source, read_file};
