//! Declarations of constants and variables.

ghost use Rattle.std.specs.Prelude.{◌≡◌, ◌++◌, Bool, OnOk, None};
ghost use Rattle.go_layout.specs.Layouts.{text_of};
ghost use Rattle.go_layout.specs.TreeLayout.{specs_layout, stmt_layout};
ghost use Rattle.go_print.specs.Parts.{spec_layout};
ghost use Rattle.go_tree.specs.View.{const_decl_of, const_spec_of, const_specs_of, var_decl_of, var_spec_of};
ghost use Rattle.go_tree.specs.View.{var_specs_of};

use crate::exprs::write_exprs;
use crate::parts::{deeper, write_line_if, write_text};
use crate::starts::{has_const_specs, has_var_specs, write_equals_before};
use crate::types::{write_names, write_spec_type};
use go_tree::{ConstDecl, ConstSpec, ConstSpecList, NoMemory, VarDecl, VarSpec, VarSpecList};

#[cycle(tree_text)]
pub(crate) fn write_const_decl(
    out: &mut Vec<u8>,
    decl: &ConstDecl,
    indent: &[u8],
) -> Result<(), NoMemory>
    ensures { (header : Bool) →
        OnOk result (out.new.items
        ≡ out.old.items ++ text_of (stmt_layout indent.now header (const_decl_of decl.now))) }
{
    write_text(out, b"const ")?;
    if decl.grouped {
        let tabs = deeper(out, indent)?;
        let inner = tabs.as_slice();
        let lines = has_const_specs(&decl.specs);
        write_text(out, b"(")?;
        write_line_if(out, lines, inner)?;
        write_const_specs(out, &decl.specs, inner)?;
        write_line_if(out, lines, indent)?;
        write_text(out, b")")
    } else {
        write_const_specs(out, &decl.specs, indent)
    }
}

#[cycle(tree_text)]
fn write_const_specs(
    out: &mut Vec<u8>,
    specs: &ConstSpecList,
    indent: &[u8],
) -> Result<(), NoMemory>
    ensures { OnOk result (out.new.items
        ≡ out.old.items ++ text_of (specs_layout indent.now None (const_specs_of specs.now))) }
{
    let items = specs.items();
    for (i, spec) in items.iter().enumerate() {
        write_const_spec(out, spec, indent)?;
        write_line_if(out, i + 1 < items.len(), indent)?;
    }
    Ok(())
}

#[cycle(tree_text)]
fn write_const_spec(out: &mut Vec<u8>, spec: &ConstSpec, indent: &[u8]) -> Result<(), NoMemory>
    ensures { OnOk result (out.new.items ≡ out.old.items ++ text_of (spec_layout indent.now (const_spec_of spec.now))) }
{
    write_names(out, &spec.names)?;
    write_spec_type(out, &spec.of)?;
    write_equals_before(out, &spec.values)?;
    write_exprs(out, &spec.values, indent, false, false)
}

#[cycle(tree_text)]
pub(crate) fn write_var_decl(
    out: &mut Vec<u8>,
    decl: &VarDecl,
    indent: &[u8],
) -> Result<(), NoMemory>
    ensures { (header : Bool) →
        OnOk result (out.new.items ≡ out.old.items ++ text_of (stmt_layout indent.now header (var_decl_of decl.now))) }
{
    write_text(out, b"var ")?;
    if decl.grouped {
        let tabs = deeper(out, indent)?;
        let inner = tabs.as_slice();
        let lines = has_var_specs(&decl.specs);
        write_text(out, b"(")?;
        write_line_if(out, lines, inner)?;
        write_var_specs(out, &decl.specs, inner)?;
        write_line_if(out, lines, indent)?;
        write_text(out, b")")
    } else {
        write_var_specs(out, &decl.specs, indent)
    }
}

#[cycle(tree_text)]
fn write_var_specs(out: &mut Vec<u8>, specs: &VarSpecList, indent: &[u8]) -> Result<(), NoMemory>
    ensures { OnOk result (out.new.items
        ≡ out.old.items ++ text_of (specs_layout indent.now None (var_specs_of specs.now))) }
{
    let items = specs.items();
    for (i, spec) in items.iter().enumerate() {
        write_var_spec(out, spec, indent)?;
        write_line_if(out, i + 1 < items.len(), indent)?;
    }
    Ok(())
}

#[cycle(tree_text)]
fn write_var_spec(out: &mut Vec<u8>, spec: &VarSpec, indent: &[u8]) -> Result<(), NoMemory>
    ensures { OnOk result (out.new.items ≡ out.old.items ++ text_of (spec_layout indent.now (var_spec_of spec.now))) }
{
    write_names(out, &spec.names)?;
    write_spec_type(out, &spec.of)?;
    write_equals_before(out, &spec.values)?;
    write_exprs(out, &spec.values, indent, false, false)
}
