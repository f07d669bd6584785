//! A place among the tokens of a file.

ghost use Rattle.std.specs.Prelude.{◌≡◌, ◌+◌, ◌<◌, ◌≤◌, true, length, drop};
ghost use Rattle.go_tree.specs.GoWords.Terminals.{lexemes};
ghost use Rattle.go_read.specs.SpellsSpans.{span_to};
ghost use Rattle.go_productions.specs.Cursors.{ahead};
ghost use Rattle.go_productions.specs.Terminals.{first_of, rest_of, start_at, taken, spelling_of, has_letters};

use crate::room::Room;
use go_scan::Tokens;
use go_tree::go_words::Terminal;
use go_tree::{Span, Token};

/// A place among the tokens of a file: those before it are read, those from it on stand ahead. It hands on the room
/// that the file's tree is made in.
#[derive(Clone, Copy)]
pub struct Cursor<'a> {
    pub room: &'a Room,
    tokens: &'a Tokens,
    at: usize,
}

impl<'a> Cursor<'a> {
    /// The place before the first token.
    #[tactic(auto, using(crate::proofs::Heads::new_at))]
    pub fn new(room: &'a Room, tokens: &'a Tokens) -> Cursor<'a>
        ensures { ahead result ≡ lexemes tokens.now.items }
    {
        Cursor {
            room,
            tokens,
            at: 0,
        }
    }

    /// The terminal that stands first, or `Foreign` where no token is left.
    #[tactic(auto, using(crate::proofs::Heads::first_at, crate::proofs::Heads::none_at, crate::proofs::Heads::stands_at))]
    pub fn first(self) -> Terminal
        ensures is { first_of (ahead self.entry) ≡ result }
        ensures stands { taken result ≤ length (ahead self.entry) }
    {
        let terminals = self.tokens.terminals();
        if self.at < terminals.len() {
            terminals[self.at]
        } else {
            Terminal::Foreign
        }
    }

    /// The place after the first token, or this one where none is left.
    #[tactic(auto, using(crate::proofs::Heads::rest_at, crate::proofs::Heads::shorter_at, crate::proofs::Heads::empty_at))]
    pub fn rest(self) -> Cursor<'a>
        ensures is { ahead result ≡ rest_of (ahead self.entry) }
        ensures shorter { 0 < length (ahead self.entry) → length (ahead result) + 1 ≡ length (ahead self.entry) }
    {
        if self.at < self.tokens.items().len() {
            Cursor {
                at: self.at + 1,
                ..self
            }
        } else {
            self
        }
    }

    /// How many tokens stand ahead.
    #[tactic(auto, using(crate::proofs::Heads::length_at))]
    pub fn len(self) -> usize
        ensures { result ≡ length (ahead self.entry) }
    {
        self.tokens.items().len().saturating_sub(self.at)
    }

    /// The place after so many tokens.
    #[tactic(auto, using(crate::proofs::Heads::skip_at))]
    pub fn skip(self, taken: usize) -> Cursor<'a>
        requires { taken ≤ length (ahead self) }
        ensures { ahead result ≡ drop taken (ahead self.entry) }
    {
        Cursor {
            at: self.tokens.items().len() - (self.len() - taken),
            ..self
        }
    }

    /// The tokens ahead.
    #[tactic(auto, using(crate::proofs::Heads::tokens_at, crate::proofs::Heads::empty_at))]
    fn tokens(self) -> &'a [Token]
        ensures { lexemes result.now ≡ ahead self.entry }
    {
        let items = self.tokens.items();
        if self.at < items.len() {
            &items[self.at..]
        } else {
            &[]
        }
    }

    /// The byte at which the token that stands first begins, or nothing where none is left.
    #[tactic(auto, using(crate::proofs::Heads::starts_at, crate::proofs::Heads::no_start_at))]
    pub fn start(self) -> Option<u32>
        ensures { result ≡ start_at (ahead self.entry) }
    {
        let items = self.tokens.items();
        if self.at < items.len() {
            Some(items[self.at].span.start)
        } else {
            None
        }
    }

    /// The span of the tokens from here up to where `end` stands; it is empty, and at 0, where none is left.
    pub fn span_to(self, end: Cursor) -> Span
        ensures { result ≡ span_to (ahead self.entry) (ahead end.entry) }
    {
        let tokens = self.tokens();
        let Some(first) = tokens.first() else {
            return Span { start: 0, end: 0 };
        };
        let taken = self.len().saturating_sub(end.len());
        match tokens[..taken].last() {
            None => Span {
                start: first.span.start,
                end: first.span.start,
            },
            Some(last) => Span {
                start: first.span.start,
                end: last.span.end,
            },
        }
    }

    /// The bytes of the name or literal that stands first.
    #[tactic(auto, using(crate::proofs::Heads::letters_are))]
    pub fn spelling(self) -> &'a [u8]
        requires { has_letters (first_of (ahead self)) ≡ true }
        ensures { result.now ≡ spelling_of (ahead self.entry) }
    {
        match self.tokens().first() {
            None => &[],
            Some(token) => token.spelling.items(),
        }
    }
}
