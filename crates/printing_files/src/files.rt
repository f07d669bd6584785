//! Files.

ghost use Rattle.std.specs.Prelude.{◌≡◌};
ghost use Rattle.go_tree.specs.FileView.{file_of};
ghost use Rattle.printing_files.specs.Files as files;

use crate::decls::is_plain;
use go_tree::FileTree;

/// Whether a file holds besides imports only constants without a type, each of one name other than `_` with an
/// expression of its own, and functions without receiver, parameters and results whose statements are calls of `println`
/// with such expressions: names, names behind that of a package, and decimal literals of at most 18 digits (Go
/// specification, Constant declarations; Function declarations; Bootstrapping). Linear in the file.
pub fn prints_only(tree: &FileTree) -> bool
    ensures { result ≡ files.prints_only (file_of tree.now) }
{
    for decl in tree.decls.items() {
        if !is_plain(decl) {
            return false;
        }
    }
    true
}
