//! The piece at the front of a text (Go specification, Lexical elements).

ghost use Rattle.std.specs.Prelude.{◌≡◌, bytes_eq, chars, codes};
ghost use Rattle.go_tree.specs.GoWords.Tokens.Pieces.{no_word_first, no_star_first, may_precede};
ghost use Rattle.go_scan.specs.Automaton.{kind_in};
ghost use Rattle.go_scan.specs.Pieces.{kind_of, seen, word_kind, lexeme_of, piece_of};
ghost use Rattle.go_scan.specs.Sizes.{sized, ExactSize};

use crate::automaton::{COMMENTS, FLOATS, IMAGINARIES, INTEGERS, RUNES, STRINGS};
use crate::characters::{blanks_size, is_blank, is_letter, is_word, word_size};
use crate::lexemes::longest;
use go_tree::TokenKind;
use go_tree::go_words::keyword;

/// What a piece of a text is.
#[derive(Clone, Copy, Debug, PartialEq, Eq)]
pub(crate) enum PieceKind {
    Blanks,
    Comment,
    Token(TokenKind),
}

/// What a word of letters and digits is.
fn word_kind(word: &str) -> PieceKind
    ensures { kind_of result ≡ word_kind (chars word.now) }
{
    if keyword(word.as_bytes()).is_some() {
        PieceKind::Token(TokenKind::Keyword)
    } else {
        PieceKind::Token(TokenKind::Ident)
    }
}

/// What the words are after which the state stands.
fn lexeme_kind(state: u8) -> PieceKind
    ensures { kind_of result ≡ kind_in state }
{
    if state < INTEGERS {
        return PieceKind::Token(TokenKind::Operator);
    }
    if state < FLOATS {
        return PieceKind::Token(TokenKind::Integer);
    }
    if state < IMAGINARIES {
        return PieceKind::Token(TokenKind::Float);
    }
    if state < RUNES {
        return PieceKind::Token(TokenKind::Imaginary);
    }
    if state < STRINGS {
        return PieceKind::Token(TokenKind::Rune);
    }
    if state < COMMENTS {
        return PieceKind::Token(TokenKind::Str);
    }
    PieceKind::Comment
}

fn no_word_first(text: &str) -> bool
    ensures { result ≡ no_word_first (chars text.now) }
{
    match text.chars().next() {
        Some(first) => !is_word(first),
        None => true,
    }
}

fn no_star_first(text: &str) -> bool
    ensures { result ≡ no_star_first (chars text.now) }
{
    match text.chars().next() {
        Some(first) => first != '*',
        None => true,
    }
}

fn is_slash(word: &str) -> bool
    ensures { result ≡ bytes_eq (chars word.now) (codes "/") }
{
    word.as_bytes() == b"/".as_slice()
}

/// No letter or digit follows a number, and no `*` the token `/`.
fn may_precede(kind: PieceKind, word: &str, rest: &str) -> bool
    ensures { result ≡ may_precede (kind_of kind) (chars word.now) (chars rest.now) }
{
    match kind {
        PieceKind::Token(TokenKind::Integer | TokenKind::Float | TokenKind::Imaginary) => {
            no_word_first(rest)
        }
        PieceKind::Token(TokenKind::Operator) => !is_slash(word) || no_star_first(rest),
        _ => true,
    }
}

fn lexeme(text: &str) -> Option<(PieceKind, usize)>
    ensures { seen result ≡ sized (chars text.now) (lexeme_of (chars text.now)) }
{
    let Some((state, size)) = longest(text) else {
        return None;
    };
    let kind = lexeme_kind(state);
    let (word, rest) = text.split_at(size);
    if may_precede(kind, word, rest) {
        Some((kind, size))
    } else {
        None
    }
}

fn front(text: &str) -> Option<(PieceKind, usize)>
    ensures { seen result ≡ sized (chars text.now) (piece_of (chars text.now)) }
{
    let Some(first) = text.chars().next() else {
        return None;
    };
    if is_blank(first) {
        return Some((PieceKind::Blanks, blanks_size(text)));
    }
    if is_letter(first) {
        let size = word_size(text);
        let (word, _) = text.split_at(size);
        return Some((word_kind(word), size));
    }
    lexeme(text)
}

/// The kind of the piece at the front and how many bytes it has, or nothing where no piece is next.
pub(crate) fn piece(text: &str) -> Option<(PieceKind, usize)>
    ensures { ExactSize (chars text.now) (seen result) }
{
    front(text)
}
