//! Tokens that run together, side by side.

ghost use Rattle.std.specs.Prelude.{◌≡◌, Some, IfOk, map, option_copied};
ghost use Rattle.std.specs.List.{list_any};
ghost use Rattle.run_rules.specs.Texts.{begins_word, is_word_byte, needs_blank, run_together, spelling_before};
ghost use Rattle.token_joints.specs.Longer.{is_longer};

use go_tree::{NoMemory, Spelling, Token};
use std::alloc::Global;

/// The operators of more than one character, and what begins a comment (Go specification, Operators and punctuation;
/// Comments).
const LONG_OPERATORS: [&[u8]; 27] = [
    b"<<=", b">>=", b"&^=", b"...", b"&&", b"||", b"<-", b"++", b"--", b"==", b"!=", b"<=", b">=",
    b":=", b"+=", b"-=", b"*=", b"/=", b"%=", b"&=", b"|=", b"^=", b"<<", b">>", b"&^", b"//",
    b"/*",
];

/// A letter, a digit or `_` in ASCII, or a byte of another character.
fn is_word_byte(byte: u8) -> bool
    ensures { result ≡ is_word_byte byte }
{
    128 <= byte
        || (byte == b'_'
            || ((48 <= byte && byte <= 57)
                || ((65 <= byte && byte <= 90) || (97 <= byte && byte <= 122))))
}

fn begins_word(bytes: &[u8]) -> bool
    ensures { result ≡ begins_word bytes.now }
{
    match bytes {
        [byte, ..] => is_word_byte(*byte),
        [] => false,
    }
}

/// Whether one of the words is longer than so many bytes and stands at the front of these.
fn begins_longer(size: usize, bytes: &[u8], words: &[&[u8]]) -> bool
    ensures { result ≡ list_any (is_longer size bytes.now) (map (λ w. w.now) words.now) }
{
    for word in words {
        if size < word.len() && bytes.starts_with(word) {
            return true;
        }
    }
    false
}

/// Whether two tokens, side by side, would be read as others: two words as one, or a longer operator or a comment that
/// the first begins (Go specification, Tokens). An error where memory is refused.
pub fn run_together(alloc: Global, a: &[u8], b: &[u8]) -> Result<bool, NoMemory>
    ensures { IfOk result (λ r. r ≡ run_together a.now b.now) }
{
    if begins_word(a) {
        return Ok(begins_word(b));
    }
    let mut both = a.to_vec(alloc)?;
    both.extend_from_slice(b)?;
    Ok(begins_longer(a.len(), &both, &LONG_OPERATORS))
}

/// The spelling of the token that ends directly before the byte, if one does. Linear in the tokens.
pub fn spelling_before(tokens: &[Token], at: u32) -> Option<&Spelling>
    ensures { option_copied result ≡ spelling_before at tokens.now }
{
    for token in tokens {
        if token.span.end == at && token.span.start < at {
            return Some(&token.spelling);
        }
    }
    None
}

/// Whether a blank has to part a token that is written at the byte from the one that ends directly before it. An error
/// where memory is refused. Linear in the tokens.
pub fn needs_blank(alloc: Global, tokens: &[Token], at: u32, first: &[u8]) -> Result<bool, NoMemory>
    ensures { IfOk result (λ r. r ≡ needs_blank (spelling_before at tokens.now) (Some first.now)) }
{
    match spelling_before(tokens, at) {
        None => Ok(false),
        Some(spelling) => run_together(alloc, spelling.items(), first),
    }
}
