//! A file that a walk found.

ghost use Rattle.std.specs.Prelude.{◌≡◌, ◌++◌, codes, IfOk, string_bytes};

use std::alloc::{AllocError, Global};

/// A file, with the name of the new one that is to take its place.
#[derive(Drop)]
pub(crate) struct Entry {
    pub path: String,
    pub fresh: String,
}

impl Entry {
    /// The file at a path; the new one is to stand beside it, with `.gofix-new` behind its name.
    pub fn new(alloc: Global, path: String) -> Result<Entry, AllocError>
        ensures path { IfOk result (λ e. string_bytes e.path ≡ string_bytes path) }
        ensures fresh { IfOk result (λ e. string_bytes e.fresh ≡ string_bytes path ++ codes ".gofix-new") }
    {
        let mut fresh = String::from_str(alloc, path.as_str())?;
        fresh.push_str(".gofix-new")?;
        Ok(Entry { path, fresh })
    }
}
