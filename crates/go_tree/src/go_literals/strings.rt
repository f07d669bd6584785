//! String literals (Go specification, String literals).

ghost use Rattle.std.specs.Prelude.{◌≡◌, ◌++◌, ◌<◌, ◌≤◌, drop, length, IfOk};
ghost use Rattle.std.specs.Char.{IsScalar, encode_utf8};
ghost use Rattle.go_tree.specs.GoWords.Texts.{interpreted_value, raw_value, text_value};
ghost use Rattle.go_tree.specs.GoLiterals.Strings.{IsString};
ghost use Rattle.go_tree.specs.GoLiterals.Units.{IsText, IsUnits, BeginsEscape, escape_size, escaped_bytes};

use crate::go_literals::escapes::escape;
use crate::go_literals::quotes::between_quotes;
use crate::{NoMemory, Text};
use std::alloc::Global;

/// The bytes that the string literal with this spelling stands for.
pub fn string_value(alloc: Global, spelling: &[u8]) -> Result<Text, NoMemory>
    requires { IsString spelling.now }
    ensures { IfOk result (λ t. t ≡ text_value spelling.now) }
{
    text(alloc, spelling)
}

fn text(alloc: Global, spelling: &[u8]) -> Result<Text, NoMemory>
    requires { IsText spelling.now }
    ensures { IfOk result (λ t. t ≡ text_value spelling.now) }
{
    let inside = between_quotes(spelling);
    if spelling[0] == b'`' {
        Ok(Text::of(raw(alloc, inside)?))
    } else {
        Ok(Text::of(interpreted(alloc, inside)?))
    }
}

/// The bytes of an interpreted string: what its characters and escapes stand for.
fn interpreted(alloc: Global, inside: &[u8]) -> Result<Vec<u8>, NoMemory>
    requires { IsUnits inside.now }
    ensures { IfOk result (λ value. value.items ≡ interpreted_value (length inside.now) inside.now) }
{
    let mut value = Vec::with_capacity(alloc, inside.len())?;
    let mut at = 0;
    while at < inside.len() {
        if inside[at] == b'\\' {
            at += 1 + push_escape(&mut value, from(inside, at + 1))?;
        } else {
            value.push(inside[at])?;
            at += 1;
        }
    }
    Ok(value)
}

fn from(bytes: &[u8], start: usize) -> &[u8]
    requires { start ≤ length bytes.now }
    ensures { result.now ≡ drop start bytes.now }
{
    &bytes[start..]
}

/// Adds what an escape without its backslash stands for; gives how many bytes the escape has.
fn push_escape(value: &mut Vec<u8>, after: &[u8]) -> Result<usize, NoMemory>
    requires { BeginsEscape after.now }
    ensures { IfOk result (λ size. (size ≡ escape_size after.now)
        × (value.new.items ≡ value.old.items ++ escaped_bytes after.now)) }
{
    let (code, size) = escape(after);
    if matches!(after[0], b'u' | b'U') {
        push_character(value, code)?;
    } else {
        value.push(code as u8)?;
    }
    Ok(size)
}

/// Adds the bytes of a character in UTF-8.
fn push_character(value: &mut Vec<u8>, code: u32) -> Result<(), NoMemory>
    requires { IsScalar code }
    ensures { IfOk result (λ _. value.new.items ≡ value.old.items ++ encode_utf8 code) }
{
    match char::from_u32(code) {
        Some(character) => {
            let mut bytes = [0; 4];
            value.extend_from_slice(character.encode_utf8(&mut bytes).as_bytes())
        }
        None => unreachable!("no character"),
    }
}

/// The bytes of a raw string: those between its quotes but carriage returns.
fn raw(alloc: Global, inside: &[u8]) -> Result<Vec<u8>, NoMemory>
    ensures { IfOk result (λ value. value.items ≡ raw_value inside.now) }
{
    let mut value = Vec::with_capacity(alloc, inside.len())?;
    for byte in inside {
        if *byte != b'\r' {
            value.push(*byte)?;
        }
    }
    Ok(value)
}
