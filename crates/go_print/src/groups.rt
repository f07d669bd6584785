//! What stands around the specs of a declaration that may be a group.

ghost use Rattle.std.specs.Prelude.{◌≡◌, ◌++◌, OnOk};
ghost use Rattle.go_layout.specs.FileLayout.{specs_indent};
ghost use Rattle.go_print.specs.Parts.{closing_text, opening_text};

use crate::parts::{write_if, write_line_if};
use go_tree::NoMemory;

/// The indent of the specs: those of a group stand one tab deeper.
pub(crate) fn indent_of(grouped: bool) -> &'static [u8]
    ensures { result.now ≡ specs_indent grouped }
{
    if grouped { b"\t" } else { b"" }
}

/// Before the specs: the parenthesis of a group, and the line of its first spec where there is one.
pub(crate) fn write_opening(out: &mut Vec<u8>, grouped: bool, any: bool) -> Result<(), NoMemory>
    ensures { OnOk result (out.new.items ≡ out.old.items ++ opening_text grouped any) }
{
    write_if(out, grouped, b"(")?;
    write_line_if(out, grouped && any, b"\t")
}

/// After the specs: the end of a group, on a line of its own after a spec.
pub(crate) fn write_closing(out: &mut Vec<u8>, grouped: bool, any: bool) -> Result<(), NoMemory>
    ensures { OnOk result (out.new.items ≡ out.old.items ++ closing_text grouped any) }
{
    write_line_if(out, grouped && any, b"")?;
    write_if(out, grouped, b")")
}
