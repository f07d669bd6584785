//! A line for each token.

use go_tree::{Token, TokenKind};
use std::alloc::{AllocError, Global};
use std::io::{self, Write};

const HEX: &[u8; 16] = b"0123456789abcdef";

fn word_of(kind: TokenKind) -> &'static str {
    match kind {
        TokenKind::Ident => "Ident",
        TokenKind::Keyword => "Keyword",
        TokenKind::Operator => "Operator",
        TokenKind::Integer => "Integer",
        TokenKind::Float => "Float",
        TokenKind::Imaginary => "Imaginary",
        TokenKind::Rune => "Rune",
        TokenKind::Str => "Str",
        TokenKind::Inserted => "Inserted",
    }
}

/// Adds the bytes in hexadecimal.
pub(crate) fn push_hex(line: &mut Vec<u8>, bytes: &[u8]) -> Result<(), AllocError> {
    for byte in bytes {
        line.push(HEX[(*byte >> 4) as usize])?;
        line.push(HEX[(*byte & 15) as usize])?;
    }
    Ok(())
}

/// Writes each token as `START END KIND SPELLING`, the spelling in hexadecimal.
pub fn write_tokens<W: Write>(alloc: Global, out: &mut W, tokens: &[Token]) -> io::Result<()> {
    let mut line = Vec::new(alloc);
    for token in tokens {
        line.clear();
        push_hex(&mut line, token.spelling.items())?;
        line.push(b'\n')?;
        let kind = word_of(token.kind);
        write!(out, "{} {} {kind} ", token.span.start, token.span.end)?;
        out.write_all(&line)?;
    }
    Ok(())
}
