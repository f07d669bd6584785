//! Files by their numbers among those of Go source.

ghost use Rattle.std.specs.Prelude.{◌≡◌, ◌<◌, Some, length};
ghost use Rattle.std.specs.List.{slice_get};
ghost use Rattle.module_texts.specs.Files.{go_files};

use module_texts::is_go_file;
use source_files::SourceFile;

/// The file of Go source with this number.
pub(crate) fn go_file(files: &[SourceFile], number: u32) -> &SourceFile
    requires { number < length (go_files files.now) }
    ensures { slice_get (go_files files.now) number ≡ Some result.now }
{
    let mut left = number;
    for file in files {
        if is_go_file(file) {
            if left == 0 {
                return file;
            }
            left -= 1;
        }
    }
    unreachable!("a number of too many files")
}
