//! The text of a file in the place of another.

ghost use Rattle.std.specs.Prelude.{◌<◌, length};
ghost use Rattle.stepped_programs.specs.Texts.{ArePut, HoldsFile, IsTextPut};

use go_scan::Tokens;
use go_tree::Text;
use programs::PackageFiles;

/// The file with this number has this text from now on, with these tokens and comments, and isn't settled.
fn put_kept(kept: &mut PackageFiles, file: usize, text: Text, tokens: Tokens)
    requires texts { file < length kept.old.texts.items }
    requires tokens { file < length kept.old.tokens.items }
    requires flags { file < length kept.old.settled.items }
    ensures { IsTextPut file text tokens kept.old kept.new }
{
    kept.texts[file] = text;
    kept.tokens[file] = tokens;
    kept.settled[file] = false;
}

/// So it is in the package with this number.
pub(crate) fn put_text(
    files: &mut [PackageFiles],
    home: usize,
    file: usize,
    text: Text,
    tokens: Tokens,
)
    requires { HoldsFile home file files.old }
    ensures { ArePut home file text tokens files.old files.new }
{
    put_kept(&mut files[home], file, text, tokens);
}
