//! Names in types and signatures.

ghost use Rattle.std.specs.Prelude.{◌≡◌, OnOk, map};
ghost use Rattle.std.specs.Option.{option_map};
ghost use Rattle.go_tree.specs.View.{type_of, fields_of, param_of, sig_of};
ghost use Rattle.member_uses.specs.PossibleUses.Views.{part_of};
ghost use Rattle.member_uses.specs.PossibleUses.Parts.{after_type, after_fields, after_type_option, after_params, after_sig};

use crate::possible_uses::parts::{PartRef, put_type};
use go_tree::{FieldSpecList, NoMemory, Param, Sig, TypeExpr};

#[cycle(type_parts)]
pub(crate) fn type_parts<'a>(t: &'a TypeExpr, list: &mut Vec<PartRef<'a>>) -> Result<(), NoMemory>
    ensures { OnOk result (map part_of list.new.items ≡ after_type (type_of t.now) (map part_of list.old.items)) }
{
    match t {
        TypeExpr::Named { .. } => put_type(t, list),
        TypeExpr::Pointer { to, .. } => type_parts(to, list),
        TypeExpr::Slice { of, .. } => type_parts(of, list),
        TypeExpr::Map { key, of, .. } => {
            type_parts(key, list)?;
            type_parts(of, list)
        }
        TypeExpr::Struct { fields, .. } => fields_parts(fields, list),
    }
}

#[cycle(type_parts)]
fn fields_parts<'a>(fields: &'a FieldSpecList, list: &mut Vec<PartRef<'a>>) -> Result<(), NoMemory>
    ensures { OnOk result (map part_of list.new.items
        ≡ after_fields (fields_of fields.now) (map part_of list.old.items)) }
{
    for field in fields.items() {
        type_parts(&field.of, list)?;
    }
    Ok(())
}

pub(crate) fn type_option_parts<'a>(
    t: &'a Option<TypeExpr>,
    list: &mut Vec<PartRef<'a>>,
) -> Result<(), NoMemory>
    ensures { OnOk result (map part_of list.new.items
        ≡ after_type_option (option_map type_of t.now) (map part_of list.old.items)) }
{
    match t {
        None => Ok(()),
        Some(t) => type_parts(t, list),
    }
}

fn params_parts<'a>(params: &'a [Param], list: &mut Vec<PartRef<'a>>) -> Result<(), NoMemory>
    ensures { OnOk result (map part_of list.new.items
        ≡ after_params (map param_of params.now) (map part_of list.old.items)) }
{
    for param in params {
        type_parts(&param.of, list)?;
    }
    Ok(())
}

/// The names in a signature's types.
pub(crate) fn sig_parts<'a>(sig: &'a Sig, list: &mut Vec<PartRef<'a>>) -> Result<(), NoMemory>
    ensures { OnOk result (map part_of list.new.items ≡ after_sig (sig_of sig.now) (map part_of list.old.items)) }
{
    params_parts(sig.params.items(), list)?;
    params_parts(sig.results.items(), list)
}
