//! Import paths as string literals.

ghost use Rattle.std.specs.Prelude.{◌≡◌, ◌<◌, ◌++◌, OnOk};
ghost use Rattle.std.specs.Char.{digit_char};
ghost use Rattle.go_layout.specs.FileLayout.{is_plain, path_spelling, quoted_byte, quoted_bytes};

use crate::parts::write_text;
use go_tree::NoMemory;

/// A path between double quotes.
pub(crate) fn write_path(out: &mut Vec<u8>, path: &[u8]) -> Result<(), NoMemory>
    ensures { OnOk result (out.new.items ≡ out.old.items ++ path_spelling path.now) }
{
    write_text(out, b"\"")?;
    write_quoted(out, path)?;
    write_text(out, b"\"")
}

fn write_quoted(out: &mut Vec<u8>, path: &[u8]) -> Result<(), NoMemory>
    ensures { OnOk result (out.new.items ≡ out.old.items ++ quoted_bytes path.now) }
{
    for byte in path {
        write_byte(out, *byte)?;
    }
    Ok(())
}

/// A byte as itself, or else as `\x` and two digits.
fn write_byte(out: &mut Vec<u8>, byte: u8) -> Result<(), NoMemory>
    ensures { OnOk result (out.new.items ≡ out.old.items ++ quoted_byte byte) }
{
    if is_plain(byte) {
        write_text(out, &[byte])
    } else {
        write_text(
            out,
            &[b'\\', b'x', hex_digit(byte / 16), hex_digit(byte % 16)],
        )
    }
}

fn is_plain(byte: u8) -> bool
    ensures { result ≡ is_plain byte }
{
    byte > 31 && byte < 127 && byte != b'"' && byte != b'\\'
}

/// The lower-case hexadecimal digit of this value.
fn hex_digit(value: u8) -> u8
    requires { value < 16 }
    ensures { result ≡ digit_char value }
{
    if value < 10 {
        b'0' + value
    } else {
        b'a' - 10 + value
    }
}
