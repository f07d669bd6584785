//! Words that are not supported.

ghost use Rattle.std.specs.Prelude.{◌≡◌, ℕ, ◌≤◌, List, if◌then◌else◌, length, map, All, Some, None};
ghost use Rattle.go_tree.specs.GoWords.Codes.{spelled, terminal_at};
ghost use Rattle.go_tree.specs.GoWords.Terminals.{is_foreign};
ghost use Rattle.go_tree.specs.GoWords.Tokens.{TokensOf};
ghost use Rattle.go_scan.specs.Unsupported.{is_package, package_start, stands_before, is_build_line, is_constraint};
ghost use Rattle.go_scan.specs.Unsupported.{blank_or_end, unsupported_spans, IsFirst, earlier, first_word};
ghost use Rattle.go_scan.specs.Unsupported.{first_constraint};

use crate::scanner::Tokens;
use go_tree::go_words::{Terminal, is_foreign};
use go_tree::{Comment, Span, Token, TokenKind};

const BUILD_LINE: &[u8; 10] = b"//go:build";

/// The first word of the text, by its offset, that is not supported, or nothing where there is none.
/// A line comment before `package` that is `//go:build`, alone or followed by a blank, counts.
pub fn unsupported(text: &[u8], tokens: &Tokens) -> Option<Span>
    requires { TokensOf text.now tokens.now.items tokens.now.comments }
    ensures { IsFirst (unsupported_spans text.now tokens.now.items tokens.now.comments) result }
{
    let place = package_start(tokens.items());
    let known = first_constraint(text, place, tokens.comments());
    first_word(known, tokens.items(), tokens.terminals())
}

fn is_package(kind: TokenKind, spelling: &[u8]) -> bool
    ensures { result ≡ is_package kind spelling.now }
{
    kind == TokenKind::Keyword && spelling == b"package".as_slice()
}

fn package_start(tokens: &[Token]) -> Option<u32>
    ensures { result ≡ package_start tokens.now }
{
    for token in tokens {
        if is_package(token.kind, token.spelling.items()) {
            return Some(token.span.start);
        }
    }
    None
}

fn stands_before(start: u32, place: Option<u32>) -> bool
    ensures { result ≡ stands_before start place }
{
    match place {
        Some(place) => start < place,
        None => false,
    }
}

fn blank_or_end(bytes: &[u8]) -> bool
    ensures { result ≡ blank_or_end bytes.now }
{
    match bytes {
        [byte, ..] => matches!(byte, b' ' | b'\t' | b'\r' | b'\n'),
        [] => true,
    }
}

fn is_build_line(bytes: &[u8]) -> bool
    ensures { result ≡ is_build_line bytes.now }
{
    bytes.starts_with(BUILD_LINE) && blank_or_end(&bytes[BUILD_LINE.len()..])
}

fn earlier(known: Option<Span>, span: Span) -> Span
    ensures { result ≡ earlier known span }
{
    match known {
        Some(known) if known.start <= span.start => known,
        _ => span,
    }
}

fn is_constraint(text: &[u8], place: Option<u32>, comment: &Comment) -> bool
    requires ordered { comment.now.span.start ≤ comment.now.span.end }
    requires within { comment.now.span.end ≤ length text.now }
    ensures { result ≡ is_constraint text.now place comment.now }
{
    let Span { start, end } = comment.span;
    stands_before(start, place) && is_build_line(&text[start as usize..end as usize])
}

fn first_constraint(text: &[u8], place: Option<u32>, comments: &[Comment]) -> Option<Span>
    requires { All (λ c. (c.span.start ≤ c.span.end) × (c.span.end ≤ length text.now)) comments.now }
    ensures { result ≡ first_constraint text.now place None comments.now }
{
    let mut first = None;
    for comment in comments {
        if is_constraint(text, place, comment) {
            first = Some(earlier(first, comment.span));
        }
    }
    first
}

/// What is known after a token with this terminal and span.
fn first_with(known: Option<Span>, terminal: Terminal, span: Span) -> Option<Span>
    ensures { (w : List ℕ) → result ≡ if is_foreign (spelled terminal w) then Some (earlier known span) else known }
{
    if is_foreign(terminal) {
        Some(earlier(known, span))
    } else {
        known
    }
}

fn first_word(known: Option<Span>, tokens: &[Token], terminals: &[Terminal]) -> Option<Span>
    requires { terminals.now ≡ map terminal_at tokens.now }
    ensures { result ≡ first_word known tokens.now }
{
    let mut first = known;
    for i in 0..terminals.len() {
        first = first_with(first, terminals[i], tokens[i].span);
    }
    first
}
