//! Tokens and comments of a text (Go specification, Source code representation, Lexical elements).

ghost use Rattle.std.specs.Prelude.{◌≡◌, ◌≢◌, ◌+◌, ◌≤◌, length, map, chars, IfOk, IfErr};
ghost use Rattle.go_tree.specs.GoWords.Codes.{terminal_at};
ghost use Rattle.go_tree.specs.GoWords.Tokens.{TokensOf, after_mark, mark_size};
ghost use Rattle.go_scan.specs.Scanned.{Refuses, HasNoTokens};

use crate::characters::BYTE_ORDER_MARK;
use crate::lists::{Lists, add, insert_due};
use crate::pieces::piece;
use go_tree::go_words::Terminal;
use go_tree::{Comment, MAX_FILE_BYTES, Token};
use std::alloc::{AllocError, Global};
use std::marker::Model;
use std::str;
use thiserror::Error;

/// The tokens and comments of a text, each in order, and the terminal that each token is.
#[derive(Drop)]
pub struct Tokens {
    tokens: Vec<Token>,
    terminals: Vec<Terminal>,
    comments: Vec<Comment>,
}

impl Model for Tokens {
    ghost use Rattle.std.specs.Prelude.{◌≡◌, map};
    ghost use Rattle.go_tree.specs.GoWords.Codes.{terminal_at};
    ghost use Rattle.go_scan.specs.TokenLists.{TokenLists};

    ghost Value = { TokenLists };

    ghost view = { λ a. record { items = a.tokens.items; comments = a.comments.items } };

    ghost invariant = { λ a. a.terminals.items ≡ map terminal_at a.tokens.items };
}

impl Tokens {
    /// The tokens, inserted semicolons among them.
    pub fn items(&self) -> &[Token]
        ensures { result.now ≡ self.now.items }
    {
        &self.tokens
    }

    /// The terminal of each token (`terminal_of` of its kind and spelling).
    pub fn terminals(&self) -> &[Terminal]
        ensures { result.now ≡ map terminal_at self.now.items }
    {
        &self.terminals
    }

    /// The comments.
    pub fn comments(&self) -> &[Comment]
        ensures { result.now ≡ self.now.comments }
    {
        &self.comments
    }
}

/// Why a text has no tokens: the byte at which it stops being UTF-8, or the byte at which the first
/// piece begins that is no token, comment or run of blanks.
#[derive(Debug, Drop, Error)]
pub enum ScanError {
    #[error("not UTF-8 at byte {0}")]
    NotUtf8(u32),
    #[error("bad token at byte {0}")]
    BadToken(u32),
    #[error("out of memory")]
    NoMemory,
}

impl From<AllocError> for ScanError {
    ghost use Rattle.go_scan.specs.declared.scanner.ScanError.{ScanError};

    ghost from_gives = { λ _ e. e ≡ ScanError.NoMemory };

    fn from(_: AllocError) -> ScanError {
        ScanError::NoMemory
    }
}

/// The tokens and comments of the text. A refusal says why there are none: `NotUtf8` has the length
/// of the longest front that is UTF-8, `BadToken` the byte at which no piece is next. Only want of
/// memory says nothing of the text.
pub fn scan(alloc: Global, text: &[u8]) -> Result<Tokens, ScanError>
    requires { length text.now ≤ MAX_FILE_BYTES }
    ensures found { IfOk result (λ t. TokensOf text.now t.items t.comments) }
    ensures refused { IfErr result (λ e. Refuses text.now e) }
    ensures none { IfErr result (λ e. e ≢ ScanError.NoMemory → HasNoTokens text.now) }
{
    scan_text(alloc, text)
}

fn scan_text(alloc: Global, text: &[u8]) -> Result<Tokens, ScanError>
    requires { length text.now ≤ MAX_FILE_BYTES }
    ensures found { IfOk result (λ t. TokensOf text.now t.items t.comments) }
    ensures refused { IfErr result (λ e. Refuses text.now e) }
{
    match str::from_utf8(text) {
        Ok(source) => scan_source(alloc, source),
        Err(fault) => Err(ScanError::NotUtf8(fault.valid_up_to() as u32)),
    }
}

/// The text after a byte order mark at its start.
fn after_mark(source: &str) -> &str
    ensures value { chars result.now ≡ after_mark (chars source.now) }
    ensures size { length result.now + mark_size (chars source.now) ≡ length source.now }
{
    match source.chars().next() {
        Some(BYTE_ORDER_MARK) => &source[BYTE_ORDER_MARK.len_utf8()..],
        _ => source,
    }
}

fn scan_source(alloc: Global, source: &str) -> Result<Tokens, ScanError>
    requires { length source.now ≤ MAX_FILE_BYTES }
    ensures found { IfOk result (λ t. TokensOf source.now t.items t.comments) }
    ensures refused { IfErr result (λ e. Refuses source.now e) }
{
    let mut lists = Lists {
        tokens: Vec::new(alloc),
        terminals: Vec::new(alloc),
        comments: Vec::new(alloc),
        due: None,
    };
    let mut rest = after_mark(source);
    while !rest.is_empty() {
        let at = (source.len() - rest.len()) as u32;
        let Some((kind, size)) = piece(rest) else {
            return Err(ScanError::BadToken(at));
        };
        let (word, more) = rest.split_at(size);
        add(alloc, &mut lists, kind, at, word)?;
        rest = more;
    }
    insert_due(alloc, &mut lists)?;
    Ok(Tokens {
        tokens: lists.tokens,
        terminals: lists.terminals,
        comments: lists.comments,
    })
}
