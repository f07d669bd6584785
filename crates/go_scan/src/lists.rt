//! The tokens and comments so far (Go specification, Semicolons, Comments).

ghost use Rattle.std.specs.Prelude.{◌≡◌, ◌+◌, ◌<◌, ◌^◌, ◌++◌, length, map, chars};
ghost use Rattle.std.specs.Prelude.{if◌then◌else◌, OnOk, Some, None};
ghost use Rattle.go_tree.specs.GoWords.Codes.{spelled, terminal_at};
ghost use Rattle.go_tree.specs.GoWords.Terminals.{terminal_of};
ghost use Rattle.go_tree.specs.GoWords.Tokens.{ends_line, inserted};
ghost use Rattle.go_tree.specs.GoWords.Tokens.Characters.{is_listed};
ghost use Rattle.go_tree.specs.GoWords.Tokens.Pieces.{blanks, token};
ghost use Rattle.go_scan.specs.Pieces.{kind_of};
ghost use Rattle.go_scan.specs.Scanned.{Adds};

use crate::pieces::PieceKind;
use go_tree::go_words::{Terminal, ends_line, terminal_of};
use go_tree::{Comment, NoMemory, Span, Spelling, Token, TokenKind};
use std::alloc::Global;

/// The tokens, the terminal of each, and the comments so far. `due` is the end of the last token where a newline, or
/// the end
/// of the text, gives a semicolon after it.
#[derive(Drop)]
pub(crate) struct Lists {
    pub tokens: Vec<Token>,
    pub terminals: Vec<Terminal>,
    pub comments: Vec<Comment>,
    pub due: Option<u32>,
}

fn has_newline(word: &str) -> bool
    ensures { result ≡ is_listed (chars word.now) 10 }
{
    word.as_bytes().contains(&b'\n')
}

/// Adds the semicolon that is due, where one is.
pub(crate) fn insert_due(alloc: Global, lists: &mut Lists) -> Result<(), NoMemory>
    ensures tokens { OnOk result (lists.new.tokens.items ≡ lists.old.tokens.items ++ inserted lists.old.due) }
    ensures terminals { OnOk result (lists.new.terminals.items
        ≡ lists.old.terminals.items ++ map terminal_at (inserted lists.old.due)) }
    ensures due { OnOk result (lists.new.due ≡ None) }
    ensures comments { lists.new.comments.items ≡ lists.old.comments.items }
{
    let Some(at) = lists.due else {
        return Ok(());
    };
    let spelling = Spelling::copied(alloc, b";")?;
    let span = Span { start: at, end: at };
    lists.terminals.push(Terminal::Semicolon)?;
    lists.tokens.push(Token {
        span,
        kind: TokenKind::Inserted,
        spelling,
    })?;
    lists.due = None;
    Ok(())
}

/// The semicolon that is due after the token, which ends at this byte.
fn due_after(kind: TokenKind, terminal: Terminal, spelling: &[u8], end: u32) -> Option<u32>
    requires { spelled terminal spelling.now ≡ terminal_of kind spelling.now }
    ensures { result ≡ if ends_line kind spelling.now then Some end else None }
{
    if ends_line(kind, terminal, spelling) {
        Some(end)
    } else {
        None
    }
}

fn add_token(
    alloc: Global,
    lists: &mut Lists,
    kind: TokenKind,
    at: u32,
    word: &str,
) -> Result<(), NoMemory>
    requires { at + length word.now < 2 ^ 32 }
    ensures { OnOk result (Adds lists.old lists.new at (token kind) (chars word.now)) }
{
    let bytes = word.as_bytes();
    let span = Span {
        start: at,
        end: at + bytes.len() as u32,
    };
    let spelling = Spelling::copied(alloc, bytes)?;
    let terminal = terminal_of(kind, bytes);
    lists.terminals.push(terminal)?;
    lists.tokens.push(Token {
        span,
        kind,
        spelling,
    })?;
    lists.due = due_after(kind, terminal, bytes, span.end);
    Ok(())
}

fn add_gap(alloc: Global, lists: &mut Lists, at: u32, word: &str) -> Result<(), NoMemory>
    ensures { OnOk result (Adds lists.old lists.new at blanks (chars word.now)) }
{
    if has_newline(word) {
        insert_due(alloc, lists)?;
    }
    Ok(())
}

/// Adds what a piece gives, which begins at the byte `at`.
pub(crate) fn add(
    alloc: Global,
    lists: &mut Lists,
    kind: PieceKind,
    at: u32,
    word: &str,
) -> Result<(), NoMemory>
    requires { at + length word.now < 2 ^ 32 }
    ensures { OnOk result (Adds lists.old lists.new at (kind_of kind) (chars word.now)) }
{
    match kind {
        PieceKind::Blanks => add_gap(alloc, lists, at, word),
        PieceKind::Comment => {
            let span = Span {
                start: at,
                end: at + word.len() as u32,
            };
            add_gap(alloc, lists, at, word)?;
            lists.comments.push(Comment { span })?;
            Ok(())
        }
        PieceKind::Token(kind) => add_token(alloc, lists, kind, at, word),
    }
}
