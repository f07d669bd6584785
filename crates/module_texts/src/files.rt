//! Files of Go source, and what they are once they are cut into tokens.

ghost use Rattle.std.specs.Prelude.{◌≡◌};
ghost use Rattle.module_texts.specs.Files.{is_go_file};

use go_scan::Tokens;
use source_files::SourceFile;

/// Whether it is another file than `go.mod` in the root.
pub fn is_go_file(file: &SourceFile) -> bool
    ensures { result ≡ is_go_file file.now }
{
    file.path.items() != b"go.mod".as_slice()
}

/// A file of Go source with its tokens and comments.
#[derive(Drop)]
pub struct ScannedFile<'a> {
    pub file: &'a SourceFile,
    pub tokens: Tokens,
}
