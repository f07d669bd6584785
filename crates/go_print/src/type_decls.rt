//! Declarations of types (Go specification, Type declarations).

ghost use Rattle.std.specs.Prelude.{◌≡◌, ◌++◌, OnOk, map};
ghost use Rattle.go_layout.specs.FileLayout.{alias_layout, lines_layout, type_spec_layout};
ghost use Rattle.go_layout.specs.Layouts.{text_of};
ghost use Rattle.go_print.specs.Parts.{types_layout};
ghost use Rattle.go_tree.specs.FileView.{type_spec_of};

use crate::groups::{indent_of, write_closing, write_opening};
use crate::parts::{write_line_if, write_name, write_text};
use crate::types::write_type;
use go_tree::{NoMemory, TypeDecl, TypeSpec};

pub(crate) fn write_types(out: &mut Vec<u8>, decl: &TypeDecl) -> Result<(), NoMemory>
    ensures { OnOk result (out.new.items
        ≡ out.old.items ++ text_of (types_layout decl.now.grouped (map type_spec_of decl.now.specs))) }
{
    let specs = decl.specs.items();
    let any = !specs.is_empty();
    write_text(out, b"type ")?;
    write_opening(out, decl.grouped, any)?;
    write_type_specs(out, specs, indent_of(decl.grouped))?;
    write_closing(out, decl.grouped, any)
}

fn write_type_specs(out: &mut Vec<u8>, items: &[TypeSpec], indent: &[u8]) -> Result<(), NoMemory>
    ensures { OnOk result (out.new.items
        ≡ out.old.items ++ text_of (lines_layout type_spec_layout indent.now (map type_spec_of items.now))) }
{
    for (i, spec) in items.iter().enumerate() {
        write_type_spec(out, spec)?;
        write_line_if(out, i + 1 < items.len(), indent)?;
    }
    Ok(())
}

fn write_type_spec(out: &mut Vec<u8>, spec: &TypeSpec) -> Result<(), NoMemory>
    ensures { OnOk result (out.new.items ≡ out.old.items ++ text_of (type_spec_layout (type_spec_of spec.now))) }
{
    write_name(out, &spec.name)?;
    write_alias(out, spec.alias)?;
    write_type(out, &spec.of)
}

/// What stands between a type's name and the type.
fn write_alias(out: &mut Vec<u8>, alias: bool) -> Result<(), NoMemory>
    ensures { OnOk result (out.new.items ≡ out.old.items ++ text_of (alias_layout alias)) }
{
    if alias {
        write_text(out, b" = ")
    } else {
        write_text(out, b" ")
    }
}
