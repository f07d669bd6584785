//! Flags of the names in types and signatures.

ghost use Rattle.std.specs.Prelude.{◌≡◌, OnOk, map};
ghost use Rattle.std.specs.Option.{option_map};
ghost use Rattle.go_tree.specs.View.{type_of, fields_of, param_of, sig_of};
ghost use Rattle.repeated_parts.specs.Flags.{flags_type, flags_fields, flags_type_option, flags_params, flags_sig};

use crate::groups::put_flag;
use go_tree::{FieldSpecList, NoMemory, Param, Sig, TypeExpr};

#[cycle(type_flags)]
pub(crate) fn type_flags(
    t: &TypeExpr,
    repeated: bool,
    flags: &mut Vec<Option<bool>>,
) -> Result<(), NoMemory>
    ensures { OnOk result (flags.new.items ≡ flags_type repeated (type_of t.now) flags.old.items) }
{
    match t {
        TypeExpr::Named { .. } => put_flag(repeated, flags),
        TypeExpr::Pointer { to, .. } => type_flags(to, repeated, flags),
        TypeExpr::Slice { of, .. } => type_flags(of, repeated, flags),
        TypeExpr::Map { key, of, .. } => {
            type_flags(key, repeated, flags)?;
            type_flags(of, repeated, flags)
        }
        TypeExpr::Struct { fields, .. } => fields_flags(fields, repeated, flags),
    }
}

#[cycle(type_flags)]
fn fields_flags(
    fields: &FieldSpecList,
    repeated: bool,
    flags: &mut Vec<Option<bool>>,
) -> Result<(), NoMemory>
    ensures { OnOk result (flags.new.items ≡ flags_fields repeated (fields_of fields.now) flags.old.items) }
{
    for field in fields.items() {
        type_flags(&field.of, repeated, flags)?;
    }
    Ok(())
}

pub(crate) fn type_option_flags(
    t: &Option<TypeExpr>,
    repeated: bool,
    flags: &mut Vec<Option<bool>>,
) -> Result<(), NoMemory>
    ensures { OnOk result (flags.new.items ≡ flags_type_option repeated (option_map type_of t.now) flags.old.items) }
{
    match t {
        None => Ok(()),
        Some(t) => type_flags(t, repeated, flags),
    }
}

fn params_flags(
    params: &[Param],
    repeated: bool,
    flags: &mut Vec<Option<bool>>,
) -> Result<(), NoMemory>
    ensures { OnOk result (flags.new.items ≡ flags_params repeated (map param_of params.now) flags.old.items) }
{
    for param in params {
        type_flags(&param.of, repeated, flags)?;
    }
    Ok(())
}

/// The names in a signature's types.
pub(crate) fn sig_flags(
    sig: &Sig,
    repeated: bool,
    flags: &mut Vec<Option<bool>>,
) -> Result<(), NoMemory>
    ensures { OnOk result (flags.new.items ≡ flags_sig repeated (sig_of sig.now) flags.old.items) }
{
    params_flags(sig.params.items(), repeated, flags)?;
    params_flags(sig.results.items(), repeated, flags)
}
