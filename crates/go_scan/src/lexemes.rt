//! Comments, operators, numbers, runes and strings (Go specification, Lexical elements), by the automaton.

ghost use Rattle.std.specs.Prelude.{◌≡◌, ◌<◌, chars, None};
ghost use Rattle.go_scan.specs.Automaton.{class_of, next_of, is_whole};
ghost use Rattle.go_scan.specs.Sizes.{found_by, longest_by_size};

use crate::automaton::{CLASS, DEAD, FOREIGN, NEXT, OPERATORS, OTHER, PARTS, START, STATES};
use crate::characters::BYTE_ORDER_MARK;

fn class(c: char) -> u8
    ensures { result ≡ class_of c }
{
    if (c as usize) < CLASS.len() {
        return CLASS[c as usize];
    }
    if c == BYTE_ORDER_MARK { FOREIGN } else { OTHER }
}

fn next(state: u8, c: char) -> u8
    requires { state < STATES }
    ensures value { result ≡ next_of state c }
    ensures small { result < STATES }
{
    NEXT[state as usize][class(c) as usize]
}

fn is_whole(state: u8) -> bool
    ensures { result ≡ is_whole state }
{
    OPERATORS <= state && state < PARTS
}

/// What has been found with this state after so many bytes.
fn found_by(found: Option<(u8, usize)>, state: u8, size: usize) -> Option<(u8, usize)>
    ensures { result ≡ found_by found state size }
{
    if is_whole(state) {
        Some((state, size))
    } else {
        found
    }
}

/// The state after the longest front that is a comment, an operator, a number, a rune or a string,
/// and how many bytes it has; nothing where no front is one.
pub(crate) fn longest(text: &str) -> Option<(u8, usize)>
    ensures { result ≡ longest_by_size START 0 None (chars text.now) }
{
    let mut state = START;
    let mut size = 0;
    let mut found = None;
    let mut rest = text.chars();
    while let Some(c) = rest.next() {
        state = next(state, c);
        if state == DEAD {
            return found;
        }
        size += c.len_utf8();
        found = found_by(found, state, size);
    }
    found
}
