//! Rune literals (Go specification, Rune literals).

ghost use Rattle.std.specs.Prelude.{◌≡◌, ◌<◌, length, slice_index, chars};
ghost use Rattle.go_tree.specs.GoLiterals.Literals.{IsRune};
ghost use Rattle.go_tree.specs.GoLiterals.Units.{IsCharacter, IsUnit, rune_inside, rune_value};

use crate::go_literals::escapes::escape;
use crate::go_literals::quotes::between_quotes;
use std::str;

/// The number of the character or byte that the rune literal with this spelling stands for.
pub fn rune_value(spelling: &[u8]) -> u32
    requires { IsRune spelling.now }
    ensures { result ≡ rune_value spelling.now }
{
    rune(between_quotes(spelling))
}

/// The value of a rune literal by what stands between its quotes.
fn rune(inside: &[u8]) -> u32
    requires { IsUnit inside.now }
    ensures { result ≡ rune_inside inside.now }
{
    if inside[0] == b'\\' {
        escape(&inside[1..]).0
    } else {
        character(inside)
    }
}

fn character(bytes: &[u8]) -> u32
    requires { IsCharacter bytes.now }
    ensures { result ≡ slice_index (chars bytes.now) 0 }
{
    match str::from_utf8(bytes) {
        Ok(text) => first_of(text),
        Err(_) => unreachable!("the bytes of a character"),
    }
}

fn first_of(text: &str) -> u32
    requires { 0 < length text.now }
    ensures { result ≡ slice_index (chars text.now) 0 }
{
    match text.chars().next() {
        Some(first) => u32::from(first),
        None => unreachable!("no character"),
    }
}
