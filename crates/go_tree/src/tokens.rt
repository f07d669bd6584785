//! Tokens and comments (Go specification, Lexical elements).

use crate::spans::Span;
use crate::spellings::Spelling;

/// What a token is. `Inserted` is a semicolon that the end of a line gives; its span is empty.
#[derive(Clone, Copy, Debug, PartialEq, Eq)]
pub enum TokenKind {
    Ident,
    Keyword,
    Operator,
    Integer,
    Float,
    Imaginary,
    Rune,
    Str,
    Inserted,
}

/// A token, where it stands, and its bytes.
#[derive(Drop)]
pub struct Token {
    pub span: Span,
    pub kind: TokenKind,
    pub spelling: Spelling,
}

/// Where a comment stands (Go specification, Comments).
#[derive(Clone, Copy, Debug, PartialEq, Eq)]
pub struct Comment {
    pub span: Span,
}
