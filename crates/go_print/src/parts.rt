//! Small parts of a text.

ghost use Rattle.std.specs.Prelude.{◌≡◌, ◌∷◌, ◌++◌, IfOk, OnOk};
ghost use Rattle.go_layout.specs.Layouts.{deeper, name_layout, text_of};
ghost use Rattle.go_tree.specs.GoWords.Operators.{assign_spelling, binary_spelling};
ghost use Rattle.go_layout.specs.TreeLayout.{label_layout, spaced, step_spelling};
ghost use Rattle.go_print.specs.Parts.{text_if};
ghost use Rattle.go_tree.specs.View.{name_at_of};
ghost use Rattle.std.specs.Option.{option_map};

use go_tree::go_words::binary_spelling;
use go_tree::{BinOp, NameAt, NoMemory};

/// The indent of what stands one tab deeper.
pub(crate) fn deeper(out: &Vec<u8>, indent: &[u8]) -> Result<Vec<u8>, NoMemory>
    ensures { IfOk result (λ inner. inner.items ≡ deeper indent.now) }
{
    let mut inner = indent.to_vec(*out.allocator())?;
    inner.push(b'\t')?;
    Ok(inner)
}

/// Bytes as they are.
pub(crate) fn write_text(out: &mut Vec<u8>, text: &[u8]) -> Result<(), NoMemory>
    ensures { OnOk result (out.new.items ≡ out.old.items ++ text.now) }
{
    out.extend_from_slice(text)
}

/// A newline, and the indent of the line that it begins.
pub(crate) fn write_line(out: &mut Vec<u8>, indent: &[u8]) -> Result<(), NoMemory>
    ensures { OnOk result (out.new.items ≡ out.old.items ++ 10 ∷ indent.now) }
{
    write_text(out, b"\n")?;
    write_text(out, indent)
}

/// Text that stands only on a condition.
pub(crate) fn write_if(out: &mut Vec<u8>, stands: bool, text: &[u8]) -> Result<(), NoMemory>
    ensures { OnOk result (out.new.items ≡ out.old.items ++ text_if stands text.now) }
{
    if stands {
        write_text(out, text)
    } else {
        Ok(())
    }
}

/// A newline and an indent where more lines follow.
pub(crate) fn write_line_if(out: &mut Vec<u8>, more: bool, indent: &[u8]) -> Result<(), NoMemory>
    ensures { OnOk result (out.new.items ≡ out.old.items ++ text_if more (10 ∷ indent.now)) }
{
    if more {
        write_line(out, indent)
    } else {
        Ok(())
    }
}

/// A binary operator with a blank on each side.
pub(crate) fn write_binary(out: &mut Vec<u8>, op: BinOp) -> Result<(), NoMemory>
    ensures { OnOk result (out.new.items ≡ out.old.items ++ text_of (spaced (binary_spelling op))) }
{
    write_text(out, b" ")?;
    write_text(out, binary_spelling(op))?;
    write_text(out, b" ")
}

/// `=`, or an operator and `=`, with a blank on each side.
pub(crate) fn write_assign(out: &mut Vec<u8>, op: Option<BinOp>) -> Result<(), NoMemory>
    ensures { OnOk result (out.new.items ≡ out.old.items ++ text_of (spaced (assign_spelling op))) }
{
    match op {
        None => write_text(out, b" = "),
        Some(op) => {
            write_text(out, b" ")?;
            write_text(out, binary_spelling(op))?;
            write_text(out, b"= ")
        }
    }
}

pub(crate) fn write_name(out: &mut Vec<u8>, name: &NameAt) -> Result<(), NoMemory>
    ensures { OnOk result (out.new.items ≡ out.old.items ++ text_of (name_layout (name_at_of name.now))) }
{
    write_text(out, name.name.items())
}

/// The label of a `break` or `continue`, where it has one.
pub(crate) fn write_label(out: &mut Vec<u8>, label: &Option<NameAt>) -> Result<(), NoMemory>
    ensures { OnOk result (out.new.items ≡ out.old.items ++ text_of (label_layout (option_map name_at_of label.now))) }
{
    match label {
        None => Ok(()),
        Some(label) => {
            write_text(out, b" ")?;
            write_name(out, label)
        }
    }
}

/// The spelling of `++` or `--`.
pub(crate) fn step_spelling(up: bool) -> &'static [u8]
    ensures { result.now ≡ step_spelling up }
{
    if up { b"++" } else { b"--" }
}
