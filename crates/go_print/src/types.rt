//! Names, types and signatures.

ghost use Rattle.std.specs.Prelude.{◌≡◌, ◌++◌, OnOk, map};
ghost use Rattle.std.specs.Option.{option_map};
ghost use Rattle.go_layout.specs.Layouts.{text_of};
ghost use Rattle.go_layout.specs.TypeLayout.{dots_where, fields_layout, names_layout, param_layout, param_list_layout};
ghost use Rattle.go_layout.specs.TypeLayout.{param_name_layout, params_layout, qualifier_layout, results_layout};
ghost use Rattle.go_layout.specs.TypeLayout.{sig_layout, type_layout};
ghost use Rattle.go_layout.specs.TreeLayout.{spec_type_layout};
ghost use Rattle.go_print.specs.Parts.{field_layout};
ghost use Rattle.go_tree.specs.View.{field_of, fields_of, name_at_of, param_of, sig_of, type_of};

use crate::parts::{write_if, write_name, write_text};
use go_tree::{
    FieldSpec, FieldSpecList, NameAt, NameAtList, NoMemory, Param, ParamList, Sig, TypeExpr,
};

pub(crate) fn write_names(out: &mut Vec<u8>, names: &NameAtList) -> Result<(), NoMemory>
    ensures { OnOk result (out.new.items ≡ out.old.items ++ text_of (names_layout (map name_at_of names.now))) }
{
    let items = names.items();
    for (i, name) in items.iter().enumerate() {
        write_name(out, name)?;
        write_if(out, i + 1 < items.len(), b", ")?;
    }
    Ok(())
}

fn write_qualifier(out: &mut Vec<u8>, qualifier: &Option<NameAt>) -> Result<(), NoMemory>
    ensures { OnOk result (out.new.items
        ≡ out.old.items ++ text_of (qualifier_layout (option_map name_at_of qualifier.now))) }
{
    match qualifier {
        None => Ok(()),
        Some(name) => {
            write_name(out, name)?;
            write_text(out, b".")
        }
    }
}

#[cycle(type_text)]
pub(crate) fn write_type(out: &mut Vec<u8>, t: &TypeExpr) -> Result<(), NoMemory>
    ensures { OnOk result (out.new.items ≡ out.old.items ++ text_of (type_layout (type_of t.now))) }
{
    match t {
        TypeExpr::Named { package, name, .. } => {
            write_qualifier(out, package)?;
            write_name(out, name)
        }
        TypeExpr::Pointer { to, .. } => {
            write_text(out, b"*")?;
            write_type(out, to)
        }
        TypeExpr::Slice { of, .. } => {
            write_text(out, b"[]")?;
            write_type(out, of)
        }
        TypeExpr::Map { key, of, .. } => {
            write_text(out, b"map[")?;
            write_type(out, key)?;
            write_text(out, b"]")?;
            write_type(out, of)
        }
        TypeExpr::Struct { fields, .. } => {
            write_text(out, b"struct{")?;
            write_fields(out, fields)?;
            write_text(out, b"}")
        }
    }
}

#[cycle(type_text)]
fn write_fields(out: &mut Vec<u8>, fields: &FieldSpecList) -> Result<(), NoMemory>
    ensures { OnOk result (out.new.items ≡ out.old.items ++ text_of (fields_layout (fields_of fields.now))) }
{
    let items = fields.items();
    for (i, field) in items.iter().enumerate() {
        write_field(out, field)?;
        write_if(out, i + 1 < items.len(), b"; ")?;
    }
    Ok(())
}

#[cycle(type_text)]
fn write_field(out: &mut Vec<u8>, field: &FieldSpec) -> Result<(), NoMemory>
    ensures { OnOk result (out.new.items ≡ out.old.items ++ text_of (field_layout (field_of field.now))) }
{
    write_name(out, &field.name)?;
    write_text(out, b" ")?;
    write_type(out, &field.of)
}

/// The type of a spec, where it has one.
pub(crate) fn write_spec_type(out: &mut Vec<u8>, t: &Option<TypeExpr>) -> Result<(), NoMemory>
    ensures { OnOk result (out.new.items ≡ out.old.items ++ text_of (spec_type_layout (option_map type_of t.now))) }
{
    match t {
        None => Ok(()),
        Some(t) => {
            write_text(out, b" ")?;
            write_type(out, t)
        }
    }
}

pub(crate) fn write_param_name(out: &mut Vec<u8>, name: &Option<NameAt>) -> Result<(), NoMemory>
    ensures { OnOk result (out.new.items
        ≡ out.old.items ++ text_of (param_name_layout (option_map name_at_of name.now))) }
{
    match name {
        None => Ok(()),
        Some(name) => {
            write_name(out, name)?;
            write_text(out, b" ")
        }
    }
}

/// The dots before the type of a variadic parameter.
fn write_dots(out: &mut Vec<u8>, rest: bool) -> Result<(), NoMemory>
    ensures { OnOk result (out.new.items ≡ out.old.items ++ text_of (dots_where rest)) }
{
    write_if(out, rest, b"...")
}

fn write_param(out: &mut Vec<u8>, param: &Param) -> Result<(), NoMemory>
    ensures { OnOk result (out.new.items ≡ out.old.items ++ text_of (param_layout (param_of param.now))) }
{
    write_param_name(out, &param.name)?;
    write_dots(out, param.rest)?;
    write_type(out, &param.of)
}

fn write_param_list(out: &mut Vec<u8>, items: &[Param]) -> Result<(), NoMemory>
    ensures { OnOk result (out.new.items ≡ out.old.items ++ text_of (param_list_layout (map param_of items.now))) }
{
    for (i, param) in items.iter().enumerate() {
        write_param(out, param)?;
        write_if(out, i + 1 < items.len(), b", ")?;
    }
    Ok(())
}

fn write_params(out: &mut Vec<u8>, items: &[Param]) -> Result<(), NoMemory>
    ensures { OnOk result (out.new.items ≡ out.old.items ++ text_of (params_layout (map param_of items.now))) }
{
    write_text(out, b"(")?;
    write_param_list(out, items)?;
    write_text(out, b")")
}

fn write_results(out: &mut Vec<u8>, items: &[Param]) -> Result<(), NoMemory>
    ensures { OnOk result (out.new.items ≡ out.old.items ++ text_of (results_layout (map param_of items.now))) }
{
    match items {
        [] => Ok(()),
        [only] if only.name.is_none() => {
            write_text(out, b" ")?;
            write_type(out, &only.of)
        }
        _ => {
            write_text(out, b" ")?;
            write_params(out, items)
        }
    }
}

/// A signature as it stands after `func` or a function's name.
pub(crate) fn write_sig(out: &mut Vec<u8>, sig: &Sig) -> Result<(), NoMemory>
    ensures { OnOk result (out.new.items ≡ out.old.items ++ text_of (sig_layout (sig_of sig.now))) }
{
    write_params(out, sig.params.items())?;
    write_results(out, sig.results.items())
}
