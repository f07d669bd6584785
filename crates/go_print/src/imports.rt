//! Import declarations (Go specification, Import declarations).

ghost use Rattle.std.specs.Prelude.{◌≡◌, ◌++◌, OnOk, map};
ghost use Rattle.go_layout.specs.FileLayout.{import_layout, import_spec_layout, lines_layout, paragraphs_layout};
ghost use Rattle.go_layout.specs.Layouts.{text_of};
ghost use Rattle.go_tree.specs.FileView.{import_decl_of, import_spec_of};

use crate::groups::{indent_of, write_closing, write_opening};
use crate::parts::{write_line, write_line_if, write_text};
use crate::paths::write_path;
use crate::types::write_param_name;
use go_tree::{ImportDecl, ImportSpec, NoMemory};

/// Import declarations, an empty line before each.
pub(crate) fn write_imports(out: &mut Vec<u8>, items: &[ImportDecl]) -> Result<(), NoMemory>
    ensures { OnOk result (out.new.items
        ≡ out.old.items ++ text_of (paragraphs_layout import_layout (map import_decl_of items.now))) }
{
    for decl in items {
        write_line(out, b"")?;
        write_import(out, decl)?;
        write_line(out, b"")?;
    }
    Ok(())
}

fn write_import(out: &mut Vec<u8>, decl: &ImportDecl) -> Result<(), NoMemory>
    ensures { OnOk result (out.new.items ≡ out.old.items ++ text_of (import_layout (import_decl_of decl.now))) }
{
    let specs = decl.specs.items();
    let any = !specs.is_empty();
    write_text(out, b"import ")?;
    write_opening(out, decl.grouped, any)?;
    write_import_specs(out, specs, indent_of(decl.grouped))?;
    write_closing(out, decl.grouped, any)
}

fn write_import_specs(
    out: &mut Vec<u8>,
    items: &[ImportSpec],
    indent: &[u8],
) -> Result<(), NoMemory>
    ensures { OnOk result (out.new.items
        ≡ out.old.items ++ text_of (lines_layout import_spec_layout indent.now (map import_spec_of items.now))) }
{
    for (i, spec) in items.iter().enumerate() {
        write_import_spec(out, spec)?;
        write_line_if(out, i + 1 < items.len(), indent)?;
    }
    Ok(())
}

fn write_import_spec(out: &mut Vec<u8>, spec: &ImportSpec) -> Result<(), NoMemory>
    ensures { OnOk result (out.new.items ≡ out.old.items ++ text_of (import_spec_layout (import_spec_of spec.now))) }
{
    write_param_name(out, &spec.name)?;
    write_path(out, spec.path.items())
}
