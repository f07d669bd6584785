//! The fields of a line.

ghost use Rattle.std.specs.Prelude.{◌≡◌};
ghost use Rattle.std.specs.Option.{option_copied};
ghost use Rattle.go_tree.specs.GoWords.Tokens.Characters.{is_blank};
ghost use Rattle.pkg_graph.specs.ModuleFiles.Pieces.{before_comment, has_bytes};
ghost use Rattle.pkg_graph.specs.ModuleFiles.ModuleFile.{argument_in};

use bstr::ByteSlice;

/// Whether there are any bytes.
pub(crate) fn has_bytes(bytes: &[u8]) -> bool
    ensures { result ≡ has_bytes bytes.now }
{
    matches!(bytes, [_, ..])
}

/// The line up to its first `//`.
pub(crate) fn before_comment(line: &[u8]) -> &[u8]
    ensures { result.now ≡ before_comment line.now }
{
    match line.split_once_str(b"//") {
        Some((before, _)) => before,
        None => line,
    }
}

fn is_blank(c: char) -> bool
    ensures { result ≡ is_blank c }
{
    matches!(c, ' ' | '\t' | '\r' | '\n')
}

/// The second of exactly two fields of the line, where the first is the word.
pub(crate) fn argument_in<'a>(word: &[u8], line: &'a [u8]) -> Option<&'a [u8]>
    ensures { option_copied result ≡ argument_in word.now line.now }
{
    let mut fields = line.fields_with(is_blank);
    let first = fields.next()?;
    let second = fields.next()?;
    if first != word {
        return None;
    }
    match fields.next() {
        None => Some(second),
        Some(_) => None,
    }
}
