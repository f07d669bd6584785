//! The marks of a file.

ghost use Rattle.std.specs.Prelude.{◌≤◌, length};

use crate::blocks::file_blocks;
use crate::tree::write_fault;
use directive_scan::{BadMark, BadReason, Mark, MarkKind, marks};
use go_parse::{Source, read_file};
use go_tree::MAX_FILE_BYTES;
use std::alloc::Global;
use std::io::{self, Write};

fn word_of(kind: MarkKind) -> &'static str {
    match kind {
        MarkKind::Function => "function",
        MarkKind::Method => "method",
        MarkKind::Constant => "constant",
        MarkKind::Alias => "alias",
    }
}

fn words_of(reason: BadReason) -> &'static str {
    match reason {
        BadReason::NotNamedConstant => "constant is not another named constant",
        BadReason::NotAlias => "type is not an alias",
        BadReason::NothingMarked => "nothing is marked",
    }
}

fn write_good<W: Write>(out: &mut W, mark: &Mark) -> io::Result<()> {
    let kind = word_of(mark.kind);
    write!(out, "{} {kind} ", mark.decl.start)?;
    out.write_all(mark.name.items())?;
    out.write_all(b"\n")
}

fn write_bad<W: Write>(out: &mut W, mark: &BadMark) -> io::Result<()> {
    let reason = words_of(mark.reason);
    writeln!(out, "{} bad: {reason}", mark.at)
}

/// Writes marks that mean something, and then others.
fn write_each<W: Write>(out: &mut W, good: &[Mark], bad: &[BadMark]) -> io::Result<()> {
    for mark in good {
        write_good(out, mark)?;
    }
    for mark in bad {
        write_bad(out, mark)?;
    }
    Ok(())
}

/// Writes the marks of a file that is read.
fn write_both<W: Write>(alloc: Global, out: &mut W, text: &[u8], source: &Source) -> io::Result<()>
    requires { length text.now ≤ MAX_FILE_BYTES }
{
    let blocks = file_blocks(alloc, &source.tree)?;
    let marks = marks(alloc, text, &source.tokens, &source.tree, &blocks.names)?;
    write_each(out, marks.good(), marks.bad())
}

/// Writes each mark of a file that means something as `OFFSET KIND NAME`, where the name stands, and then each other as
/// `OFFSET bad: REASON`; of a file without a tree why it has none.
pub fn write_marks<W: Write>(alloc: Global, out: &mut W, text: &[u8]) -> io::Result<()>
    requires { length text.now ≤ MAX_FILE_BYTES }
{
    match read_file(alloc, text) {
        Ok(source) => write_both(alloc, out, text, &source),
        Err(fault) => write_fault(out, &fault),
    }
}
