//! A call whose literal adds imports: the call in its file means what the literal does in the file with
//! the imports added (Go specification, Import declarations; Qualified identifiers; Calls; Function
//! literals).

mod laws;

pub use laws::{added_names_serve, calls_mean_literals_with_imports, files_with_imports_mean_more};
