//! The tree of a file.

ghost use Rattle.std.specs.Prelude.{◌≡◌, ◌≤◌, IfErr, IfOk, MatchResult, None, length};
ghost use Rattle.go_tree.specs.declared.spans.Span.{Span};
ghost use Rattle.go_tree.specs.File.{File};
ghost use Rattle.go_tree.specs.FileView.{file_of};
ghost use Rattle.go_tree.specs.GoWords.Tokens.{TokensOf};
ghost use Rattle.go_scan.specs.Unsupported.{IsFirst, unsupported_spans};
ghost use Rattle.go_tree.specs.GoWords.Terminals.{lexemes};
ghost use Rattle.go_productions.specs.Cursors.{ahead};
ghost use Rattle.go_read.specs.SpellsFiles.{SpellsFile};
ghost use Rattle.go_read.specs.Fronts.{first_or_end};
ghost use Rattle.go_nesting.specs.Over.{IsFirstOver};
ghost use Rattle.go_parse.specs.Refusals.{Refuses};

use crate::file::front;
use go_nesting::MAX_LIMIT;
use go_productions::{Cursor, Room};
use go_scan::Tokens;
use go_tree::{FileTree, MAX_FILE_BYTES};
use std::alloc::{AllocError, Global};
use thiserror::Error;

/// Why a file has no tree.
#[derive(Debug, Drop, Error)]
pub enum ParseError {
    /// No tree spells the tokens: the byte at which the first part begins that isn't read.
    #[error("not read at byte {0}")]
    NotRead(u32),
    /// Memory was refused, whether or not a tree spells the tokens.
    #[error("out of memory")]
    NoMemory,
}

impl From<AllocError> for ParseError {
    ghost use Rattle.go_parse.specs.declared.parser.ParseError.{ParseError};

    ghost from_gives = { λ _ e. e ≡ ParseError.NoMemory };

    fn from(_: AllocError) -> ParseError {
        ParseError::NoMemory
    }
}

/// Where the first token starts, or the end of the text where there is none.
#[tactic(auto, using(crate::proofs::Outcomes::start_is, crate::proofs::Outcomes::end_is))]
fn first_or_end(text: &[u8], tokens: Cursor) -> u32
    requires { length text.now ≤ MAX_FILE_BYTES }
    ensures { result ≡ first_or_end (length text.now) (ahead tokens.entry) }
{
    match tokens.start() {
        Some(start) => start,
        None => text.len() as u32,
    }
}

/// The tree that the tokens of the text spell, each node with its span (Go specification, Source
/// file organization). `NotRead` comes exactly where no tree spells them, and has the place of the
/// first part after the longest front that is a package clause followed by whole imports and
/// declarations, each with its semicolon; where there is no such front, the start of the first
/// token, or the end of the text where it has none.
pub fn parse(alloc: Global, text: &[u8], tokens: &Tokens) -> Result<FileTree, ParseError>
    requires small { length text.now ≤ MAX_FILE_BYTES }
    requires words { TokensOf text.now tokens.now.items tokens.now.comments }
    requires supported { IsFirst (unsupported_spans text.now tokens.now.items tokens.now.comments) None }
    requires shallow { IsFirstOver MAX_LIMIT tokens.now.items None }
    ensures found { IfOk result (λ f. SpellsFile tokens.now.items (file_of f)) }
    ensures only { (f : File Span) → SpellsFile tokens.now.items f →
        MatchResult result (λ t. file_of t ≡ f) (λ e. e ≡ ParseError.NoMemory) }
    ensures refused { IfErr result (λ e. Refuses (length text.now) (lexemes tokens.now.items) e) }
{
    let room = Room::new(alloc);
    let whole = Cursor::new(&room, tokens);
    let Some((file, after)) = front(whole)? else {
        return Err(ParseError::NotRead(first_or_end(text, whole)));
    };
    match after.start() {
        Some(start) => Err(ParseError::NotRead(start)),
        None => Ok(file),
    }
}
