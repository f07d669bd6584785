//! The terminals of the grammar (Go specification, Tokens, Keywords, Operators and punctuation).

ghost use Rattle.std.specs.Prelude.{◌≡◌, ℕ, ◌<◌, List, map, slice_index};
ghost use Rattle.std.specs.Option.{option_map};
ghost use Rattle.go_tree.specs.GoWords.Terminals.{keywords, operators, terminal_of, is_foreign, ends_statement};
ghost use Rattle.go_tree.specs.GoWords.Codes.{spelled, foreign_or, row_at, row_of, hash_of};
ghost use Rattle.go_tree.specs.GoWords.Tokens.{ends_line};

use crate::{BinOp, TokenKind};

/// What a token is in the grammar. The bytes of a name or of a literal stand in the token.
#[derive(Clone, Copy, Debug, PartialEq, Eq)]
pub enum Terminal {
    /// An identifier.
    Ident,
    IntLit,
    RuneLit,
    StrLit,
    /// A binary operator; some are unary too.
    Binary(BinOp),
    /// `!`
    Not,
    /// `=`, or an operator with `=`.
    Assign(Option<BinOp>),
    /// `:=`
    Define,
    Increment,
    Decrement,
    Comma,
    Semicolon,
    Colon,
    Dot,
    Ellipsis,
    Paren,
    EndParen,
    Bracket,
    EndBracket,
    Brace,
    EndBrace,
    Break,
    Case,
    Const,
    Continue,
    Default,
    Defer,
    Else,
    For,
    Func,
    If,
    Import,
    Map,
    Package,
    Range,
    Return,
    Struct,
    Switch,
    Type,
    Var,
    /// A token that no production holds.
    Foreign,
}

const KEYWORDS: [(&[u8], Terminal); 25] = [
    (b"break", Terminal::Break),
    (b"case", Terminal::Case),
    (b"chan", Terminal::Foreign),
    (b"const", Terminal::Const),
    (b"continue", Terminal::Continue),
    (b"default", Terminal::Default),
    (b"defer", Terminal::Defer),
    (b"else", Terminal::Else),
    (b"fallthrough", Terminal::Foreign),
    (b"for", Terminal::For),
    (b"func", Terminal::Func),
    (b"go", Terminal::Foreign),
    (b"goto", Terminal::Foreign),
    (b"if", Terminal::If),
    (b"import", Terminal::Import),
    (b"interface", Terminal::Foreign),
    (b"map", Terminal::Map),
    (b"package", Terminal::Package),
    (b"range", Terminal::Range),
    (b"return", Terminal::Return),
    (b"select", Terminal::Foreign),
    (b"struct", Terminal::Struct),
    (b"switch", Terminal::Switch),
    (b"type", Terminal::Type),
    (b"var", Terminal::Var),
];

const OPERATORS: [(&[u8], Terminal); 48] = [
    (b"+", Terminal::Binary(BinOp::Add)),
    (b"-", Terminal::Binary(BinOp::Sub)),
    (b"*", Terminal::Binary(BinOp::Mul)),
    (b"/", Terminal::Binary(BinOp::Div)),
    (b"%", Terminal::Binary(BinOp::Rem)),
    (b"&", Terminal::Binary(BinOp::And)),
    (b"|", Terminal::Binary(BinOp::Or)),
    (b"^", Terminal::Binary(BinOp::Xor)),
    (b"<<", Terminal::Binary(BinOp::Shl)),
    (b">>", Terminal::Binary(BinOp::Shr)),
    (b"&^", Terminal::Binary(BinOp::AndNot)),
    (b"+=", Terminal::Assign(Some(BinOp::Add))),
    (b"-=", Terminal::Assign(Some(BinOp::Sub))),
    (b"*=", Terminal::Assign(Some(BinOp::Mul))),
    (b"/=", Terminal::Assign(Some(BinOp::Div))),
    (b"%=", Terminal::Assign(Some(BinOp::Rem))),
    (b"&=", Terminal::Assign(Some(BinOp::And))),
    (b"|=", Terminal::Assign(Some(BinOp::Or))),
    (b"^=", Terminal::Assign(Some(BinOp::Xor))),
    (b"<<=", Terminal::Assign(Some(BinOp::Shl))),
    (b">>=", Terminal::Assign(Some(BinOp::Shr))),
    (b"&^=", Terminal::Assign(Some(BinOp::AndNot))),
    (b"&&", Terminal::Binary(BinOp::LogAnd)),
    (b"||", Terminal::Binary(BinOp::LogOr)),
    (b"<-", Terminal::Foreign),
    (b"++", Terminal::Increment),
    (b"--", Terminal::Decrement),
    (b"==", Terminal::Binary(BinOp::Eq)),
    (b"<", Terminal::Binary(BinOp::Lt)),
    (b">", Terminal::Binary(BinOp::Gt)),
    (b"=", Terminal::Assign(None)),
    (b"!", Terminal::Not),
    (b"~", Terminal::Foreign),
    (b"!=", Terminal::Binary(BinOp::Ne)),
    (b"<=", Terminal::Binary(BinOp::Le)),
    (b">=", Terminal::Binary(BinOp::Ge)),
    (b":=", Terminal::Define),
    (b"...", Terminal::Ellipsis),
    (b"(", Terminal::Paren),
    (b"[", Terminal::Bracket),
    (b"{", Terminal::Brace),
    (b",", Terminal::Comma),
    (b".", Terminal::Dot),
    (b")", Terminal::EndParen),
    (b"]", Terminal::EndBracket),
    (b"}", Terminal::EndBrace),
    (b";", Terminal::Semicolon),
    (b":", Terminal::Colon),
];

/// The row of each keyword by the hash of its bytes. A word of another hash is no keyword.
#[rattlefmt::skip]
static KEYWORD_ROWS: [u8; 64] = [
    0, 14, 0, 16, 0, 0, 0, 0, 0, 0, 0, 0, 24, 13, 0, 4,
    0, 0, 10, 0, 18, 0, 6, 15, 0, 0, 0, 2, 0, 0, 17, 0,
    0, 0, 5, 0, 0, 0, 0, 21, 0, 0, 19, 20, 8, 7, 0, 11,
    23, 0, 0, 22, 9, 0, 0, 0, 0, 0, 0, 12, 0, 3, 0, 1,
];

/// The row of each operator by the hash of its bytes.
#[rattlefmt::skip]
static OPERATOR_ROWS: [u8; 128] = [
    0, 0, 13, 11, 0, 12, 0, 14, 0, 0, 0, 0, 0, 19, 40, 6,
    45, 32, 36, 37, 34, 27, 35, 0, 0, 0, 0, 0, 0, 0, 0, 0,
    0, 0, 0, 0, 0, 0, 0, 0, 22, 0, 0, 0, 0, 0, 0, 25,
    9, 0, 0, 0, 31, 0, 18, 0, 4, 5, 23, 38, 43, 2, 0, 41,
    1, 42, 3, 20, 0, 0, 0, 0, 0, 0, 0, 0, 0, 47, 46, 28,
    30, 29, 0, 0, 17, 0, 0, 0, 10, 0, 0, 0, 0, 0, 0, 0,
    0, 0, 0, 0, 0, 26, 0, 0, 0, 0, 0, 21, 0, 0, 39, 0,
    44, 7, 0, 0, 24, 0, 0, 0, 0, 33, 8, 0, 0, 15, 16, 0,
];

/// The terminal of the word, where it is that of the row.
fn row_at(table: &[(&[u8], Terminal)], at: usize, word: &[u8]) -> Option<Terminal>
    ensures { option_map (λ t. spelled t word.now) result
        ≡ row_at (map (λ x. (x.0.now, spelled x.1 word.now)) table.now) at word.now }
{
    match table.get(at) {
        Some((known, terminal)) => {
            if *known == word {
                Some(*terminal)
            } else {
                None
            }
        }
        None => None,
    }
}

/// The byte at the place, or 0 where the word is shorter.
fn byte_at(word: &[u8], at: usize) -> usize
    ensures value { result ≡ slice_index word.now at }
    ensures small { result < 256 }
{
    match word.get(at) {
        Some(byte) => usize::from(*byte),
        None => 0,
    }
}

/// A number of the word, for which no two keywords, and no two operators, share a row.
fn hash(word: &[u8], second: usize, size: usize) -> usize
    requires second { second < 256 }
    requires size { size < 256 }
    ensures { result ≡ hash_of second size word.now }
{
    byte_at(word, 0) + second * byte_at(word, 1) + size * (word.len() % 64)
}

/// The terminal of a word that is a keyword.
pub fn keyword(word: &[u8]) -> Option<Terminal>
    ensures { option_map (λ t. spelled t word.now) result ≡ row_of keywords word.now }
{
    let row = KEYWORD_ROWS[hash(word, 4, 6) % 64];
    row_at(&KEYWORDS, usize::from(row), word)
}

fn operator(word: &[u8]) -> Option<Terminal>
    ensures { option_map (λ t. spelled t word.now) result ≡ row_of operators word.now }
{
    let row = OPERATOR_ROWS[hash(word, 26, 19) % 128];
    row_at(&OPERATORS, usize::from(row), word)
}

fn or_foreign(found: Option<Terminal>) -> Terminal
    ensures { (w : List ℕ) → spelled result w ≡ foreign_or (option_map (λ t. spelled t w) found) }
{
    match found {
        Some(terminal) => terminal,
        None => Terminal::Foreign,
    }
}

/// Which terminal a token of this kind and spelling is.
pub fn terminal_of(kind: TokenKind, spelling: &[u8]) -> Terminal
    ensures { spelled result spelling.now ≡ terminal_of kind spelling.now }
{
    match kind {
        TokenKind::Ident => Terminal::Ident,
        TokenKind::Keyword => or_foreign(keyword(spelling)),
        TokenKind::Operator => or_foreign(operator(spelling)),
        TokenKind::Integer => Terminal::IntLit,
        TokenKind::Float | TokenKind::Imaginary => Terminal::Foreign,
        TokenKind::Rune => Terminal::RuneLit,
        TokenKind::Str => Terminal::StrLit,
        TokenKind::Inserted => Terminal::Semicolon,
    }
}

/// Whether no production holds the token.
pub fn is_foreign(terminal: Terminal) -> bool
    ensures { (w : List ℕ) → result ≡ is_foreign (spelled terminal w) }
{
    matches!(terminal, Terminal::Foreign)
}

fn ends_statement(terminal: Terminal) -> bool
    ensures { (w : List ℕ) → result ≡ ends_statement (spelled terminal w) }
{
    matches!(
        terminal,
        Terminal::Ident
            | Terminal::IntLit
            | Terminal::RuneLit
            | Terminal::StrLit
            | Terminal::Increment
            | Terminal::Decrement
            | Terminal::EndParen
            | Terminal::EndBracket
            | Terminal::EndBrace
            | Terminal::Break
            | Terminal::Continue
            | Terminal::Return
    )
}

/// Whether a newline after a token of this kind and spelling, with its terminal, gives a semicolon
/// (Go specification, Semicolons).
pub fn ends_line(kind: TokenKind, terminal: Terminal, spelling: &[u8]) -> bool
    requires { spelled terminal spelling.now ≡ terminal_of kind spelling.now }
    ensures { result ≡ ends_line kind spelling.now }
{
    match kind {
        TokenKind::Keyword => ends_statement(terminal) || spelling == b"fallthrough".as_slice(),
        TokenKind::Operator => ends_statement(terminal),
        TokenKind::Inserted => false,
        _ => true,
    }
}
