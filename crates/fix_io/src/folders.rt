//! Folders that a walk of a module doesn't enter.

ghost use Rattle.std.specs.Prelude.{◌↔◌, IsTrue};
ghost use Rattle.fix_io.specs.Folders.{IsSkipped};

/// Whether a folder of this name is left out, as the go command does: `testdata`, `vendor`, and each
/// name that begins with `_` or `.`. Takes no memory.
pub fn skipped_folder(name: &str) -> bool
    ensures { IsTrue result ↔ IsSkipped name.now }
{
    name == "testdata" || name == "vendor" || name.starts_with('_') || name.starts_with('.')
}
