//! Names in lists of names, types and signatures.

ghost use Rattle.std.specs.Prelude.{◌≡◌, OnOk, map};
ghost use Rattle.std.specs.Option.{option_map};
ghost use Rattle.go_tree.specs.View.{name_at_of, type_of, fields_of, field_of, param_of, sig_of};
ghost use Rattle.name_walks.specs.Walk.{walk_of};
ghost use Rattle.names_within.specs.TreeWalk.{mention_option, bind_option, begin, begin_option, bind_all, declare_all};
ghost use Rattle.names_within.specs.TreeWalk.{hold_all, begin_all, after_named, after_type, after_fields, after_field};
ghost use Rattle.names_within.specs.TreeWalk.{after_type_option, after_param, after_params, begin_params, after_sig};
ghost use Rattle.names_within.specs.TreeWalk.{begin_sig};

use go_tree::{FieldSpec, FieldSpecList, NameAt, NameAtList, NoMemory, Param, Sig, TypeExpr};
use name_walks::NameWalk;

pub(crate) fn mention_option(names: &mut NameWalk, name: &Option<NameAt>) -> Result<(), NoMemory>
    ensures { OnOk result (walk_of names.new ≡ mention_option (option_map name_at_of name.now) (walk_of names.old)) }
{
    match name {
        None => Ok(()),
        Some(name) => names.mention(&name.name),
    }
}

pub(crate) fn bind_option(names: &mut NameWalk, name: &Option<NameAt>) -> Result<(), NoMemory>
    ensures { OnOk result (walk_of names.new ≡ bind_option (option_map name_at_of name.now) (walk_of names.old)) }
{
    match name {
        None => Ok(()),
        Some(name) => names.bind(&name.name),
    }
}

/// A name whose scope begins at `from`.
fn begin(names: &mut NameWalk, from: u32, name: &NameAt) -> Result<(), NoMemory>
    ensures { OnOk result (walk_of names.new ≡ begin from (name_at_of name.now) (walk_of names.old)) }
{
    names.hold(false, from, name)?;
    names.learn(&name.name)?;
    names.declare(&name.name)
}

pub(crate) fn begin_option(
    names: &mut NameWalk,
    from: u32,
    name: &Option<NameAt>,
) -> Result<(), NoMemory>
    ensures { OnOk result (walk_of names.new
        ≡ begin_option from (option_map name_at_of name.now) (walk_of names.old)) }
{
    match name {
        None => Ok(()),
        Some(name) => begin(names, from, name),
    }
}

/// Names in the place where they are declared.
pub(crate) fn bind_all(names: &mut NameWalk, list: &NameAtList) -> Result<(), NoMemory>
    ensures { OnOk result (walk_of names.new ≡ bind_all (map name_at_of list.now) (walk_of names.old)) }
{
    for name in list.items() {
        names.bind(&name.name)?;
    }
    Ok(())
}

/// Names that are declared from here on.
fn declare_all(names: &mut NameWalk, list: &NameAtList) -> Result<(), NoMemory>
    ensures { OnOk result (walk_of names.new ≡ declare_all (map name_at_of list.now) (walk_of names.old)) }
{
    for name in list.items() {
        names.learn(&name.name)?;
        names.declare(&name.name)?;
    }
    Ok(())
}

/// Names that hold from `from` on.
fn hold_all(
    names: &mut NameWalk,
    only_new: bool,
    from: u32,
    list: &NameAtList,
) -> Result<(), NoMemory>
    ensures { OnOk result (walk_of names.new
        ≡ hold_all only_new from (map name_at_of list.now) (walk_of names.old)) }
{
    for name in list.items() {
        names.hold(only_new, from, name)?;
    }
    Ok(())
}

/// Names whose scopes begin at `from`.
pub(crate) fn begin_all(
    names: &mut NameWalk,
    only_new: bool,
    from: u32,
    list: &NameAtList,
) -> Result<(), NoMemory>
    ensures { OnOk result (walk_of names.new
        ≡ begin_all only_new from (map name_at_of list.now) (walk_of names.old)) }
{
    hold_all(names, only_new, from, list)?;
    declare_all(names, list)
}

fn named_names(
    names: &mut NameWalk,
    qualifier: &Option<NameAt>,
    name: &NameAt,
) -> Result<(), NoMemory>
    ensures { OnOk result (walk_of names.new
        ≡ after_named (option_map name_at_of qualifier.now) (name_at_of name.now) (walk_of names.old)) }
{
    match qualifier {
        None => names.use_name(&name.name),
        Some(qualifier) => {
            names.use_name(&qualifier.name)?;
            names.mention(&name.name)
        }
    }
}

#[cycle(type_names)]
pub(crate) fn type_names(names: &mut NameWalk, t: &TypeExpr) -> Result<(), NoMemory>
    ensures { OnOk result (walk_of names.new ≡ after_type (type_of t.now) (walk_of names.old)) }
{
    match t {
        TypeExpr::Named { package, name, .. } => named_names(names, package, name),
        TypeExpr::Pointer { to, .. } => type_names(names, to),
        TypeExpr::Slice { of, .. } => type_names(names, of),
        TypeExpr::Map { key, of, .. } => {
            type_names(names, key)?;
            type_names(names, of)
        }
        TypeExpr::Struct { fields, .. } => fields_names(names, fields),
    }
}

#[cycle(type_names)]
fn fields_names(names: &mut NameWalk, fields: &FieldSpecList) -> Result<(), NoMemory>
    ensures { OnOk result (walk_of names.new ≡ after_fields (fields_of fields.now) (walk_of names.old)) }
{
    for field in fields.items() {
        field_names(names, field)?;
    }
    Ok(())
}

#[cycle(type_names)]
fn field_names(names: &mut NameWalk, field: &FieldSpec) -> Result<(), NoMemory>
    ensures { OnOk result (walk_of names.new ≡ after_field (field_of field.now) (walk_of names.old)) }
{
    names.mention(&field.name.name)?;
    type_names(names, &field.of)
}

pub(crate) fn type_option_names(names: &mut NameWalk, t: &Option<TypeExpr>) -> Result<(), NoMemory>
    ensures { OnOk result (walk_of names.new ≡ after_type_option (option_map type_of t.now) (walk_of names.old)) }
{
    match t {
        None => Ok(()),
        Some(t) => type_names(names, t),
    }
}

fn param_names(names: &mut NameWalk, param: &Param) -> Result<(), NoMemory>
    ensures { OnOk result (walk_of names.new ≡ after_param (param_of param.now) (walk_of names.old)) }
{
    bind_option(names, &param.name)?;
    type_names(names, &param.of)
}

fn params_names(names: &mut NameWalk, params: &[Param]) -> Result<(), NoMemory>
    ensures { OnOk result (walk_of names.new ≡ after_params (map param_of params.now) (walk_of names.old)) }
{
    for param in params {
        param_names(names, param)?;
    }
    Ok(())
}

fn begin_params(names: &mut NameWalk, from: u32, params: &[Param]) -> Result<(), NoMemory>
    ensures { OnOk result (walk_of names.new ≡ begin_params from (map param_of params.now) (walk_of names.old)) }
{
    for param in params {
        begin_option(names, from, &param.name)?;
    }
    Ok(())
}

/// The names of a signature with its types.
pub(crate) fn sig_names(names: &mut NameWalk, sig: &Sig) -> Result<(), NoMemory>
    ensures { OnOk result (walk_of names.new ≡ after_sig (sig_of sig.now) (walk_of names.old)) }
{
    params_names(names, sig.params.items())?;
    params_names(names, sig.results.items())
}

/// The parameters and results as a body that begins at `from` sees them.
pub(crate) fn begin_sig(names: &mut NameWalk, from: u32, sig: &Sig) -> Result<(), NoMemory>
    ensures { OnOk result (walk_of names.new ≡ begin_sig from (sig_of sig.now) (walk_of names.old)) }
{
    begin_params(names, from, sig.params.items())?;
    begin_params(names, from, sig.results.items())
}
