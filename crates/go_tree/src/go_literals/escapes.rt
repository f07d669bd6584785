//! Escapes (Go specification, Rune literals).

ghost use Rattle.std.specs.Prelude.{◌≡◌};
ghost use Rattle.go_tree.specs.GoWords.Texts.{letter_escape};
ghost use Rattle.go_tree.specs.GoLiterals.Units.{BeginsEscape, escape_code, escape_size};

use crate::go_literals::digits::short_number;

/// The byte or character that an escape without its backslash names, and how many bytes the escape
/// has.
pub(crate) fn escape(after: &[u8]) -> (u32, usize)
    requires { BeginsEscape after.now }
    ensures code { result.0 ≡ escape_code after.now }
    ensures size { result.1 ≡ escape_size after.now }
{
    match after[0] {
        b'0'..=b'7' => (short_number(8, &after[..3]), 3),
        b'x' => (short_number(16, &after[1..3]), 3),
        b'u' => (short_number(16, &after[1..5]), 5),
        b'U' => (short_number(16, &after[1..9]), 9),
        letter => (u32::from(letter_escape(letter)), 1),
    }
}

fn letter_escape(letter: u8) -> u8
    ensures { result ≡ letter_escape letter }
{
    match letter {
        b'a' => 7,
        b'b' => 8,
        b'f' => 12,
        b'n' => b'\n',
        b'r' => b'\r',
        b't' => b'\t',
        b'v' => 11,
        other => other,
    }
}
