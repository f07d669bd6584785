//! Why a file isn't read.

ghost use Rattle.std.specs.Prelude.{OnOk};
ghost use Rattle.go_show.specs.Outcomes.{Says};

use go_parse::ReadError;
use std::io::{self, Write};

/// Writes why a file isn't read, and the byte at which that is seen.
pub fn write_fault<W: Write>(out: &mut W, fault: &ReadError) -> io::Result<()>
    ensures { OnOk result (Says (W.contents out.old) (W.contents out.new) fault.now) }
{
    match fault {
        ReadError::NotUtf8(offset) => writeln!(out, "not UTF-8 {offset}"),
        ReadError::BadToken(offset) => writeln!(out, "bad token {offset}"),
        ReadError::Unsupported(offset) => writeln!(out, "unsupported {offset}"),
        ReadError::TooDeep(offset) => writeln!(out, "too deep {offset}"),
        ReadError::NotRead(offset) => writeln!(out, "not read {offset}"),
        ReadError::NoMemory => Err(io::Error::from(io::ErrorKind::OutOfMemory)),
    }
}
