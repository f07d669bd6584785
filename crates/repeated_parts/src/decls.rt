//! Flags of the parts of declarations.

ghost use Rattle.std.specs.Prelude.{◌≡◌, false, IfOk, OnOk, map};
ghost use Rattle.std.specs.Option.{option_map};
ghost use Rattle.go_tree.specs.Lists.{specs_from};
ghost use Rattle.go_tree.specs.View.{const_spec_of};
ghost use Rattle.go_tree.specs.FileView.{type_spec_of, receiver_of, func_of, decl_of};
ghost use Rattle.repeated_parts.specs.Flags.{flags_specs, flags_types, flags_receiver, flags_func, flags_of};
ghost use Rattle.repeated_parts.specs.LiteralTypes.Views.{numbers_of};

use crate::exprs::exprs_flags;
use crate::groups::put_flag;
use crate::literal_types::TypeScopes;
use crate::stmts::{stmts_flags, var_specs_flags};
use crate::types::{sig_flags, type_flags, type_option_flags};
use go_tree::{ConstSpec, Decl, FuncDecl, NoMemory, Receiver, TypeSpec};
use std::alloc::Global;

/// Constants outside of functions, which no form repeats otherwise than as they stand.
fn const_specs_flags(
    scopes: &TypeScopes,
    specs: &[ConstSpec],
    flags: &mut Vec<Option<bool>>,
) -> Result<(), NoMemory>
    ensures { OnOk result (flags.new.items
        ≡ flags_specs (numbers_of scopes.now) false (specs_from (map const_spec_of specs.now)) flags.old.items) }
{
    for spec in specs {
        type_option_flags(&spec.of, false, flags)?;
        exprs_flags(scopes, &spec.values, false, flags)?;
    }
    Ok(())
}

fn types_flags(specs: &[TypeSpec], flags: &mut Vec<Option<bool>>) -> Result<(), NoMemory>
    ensures { OnOk result (flags.new.items ≡ flags_types false (map type_spec_of specs.now) flags.old.items) }
{
    for spec in specs {
        type_flags(&spec.of, false, flags)?;
    }
    Ok(())
}

fn receiver_flags(
    receiver: &Option<Receiver>,
    flags: &mut Vec<Option<bool>>,
) -> Result<(), NoMemory>
    ensures { OnOk result (flags.new.items
        ≡ flags_receiver false (option_map receiver_of receiver.now) flags.old.items) }
{
    match receiver {
        None => Ok(()),
        Some(_) => put_flag(false, flags),
    }
}

fn func_flags(
    scopes: &TypeScopes,
    func: &FuncDecl,
    flags: &mut Vec<Option<bool>>,
) -> Result<(), NoMemory>
    ensures { OnOk result (flags.new.items
        ≡ flags_func (numbers_of scopes.now) (func_of func.now) flags.old.items) }
{
    receiver_flags(&func.receiver, flags)?;
    sig_flags(&func.sig, false, flags)?;
    stmts_flags(scopes, &func.body.stmts, false, flags)
}

/// Of each part of a declaration that may be a use of a marked declaration, as `decl_parts` lists them: whether it
/// stands in a member of a group of constants in a function whose expressions the next member repeats (Go
/// specification, Constant declarations); none for a key that names a field, as the table of declared types tells
/// (Composite literals). An error where memory is refused. Linear in the declaration, with a look-up for each literal.
pub fn repeated_parts(
    alloc: Global,
    scopes: &TypeScopes,
    decl: &Decl,
) -> Result<Vec<Option<bool>>, NoMemory>
    ensures { IfOk result (λ flags. flags.items ≡ flags_of (numbers_of scopes.now) (decl_of decl.now)) }
{
    let mut flags = Vec::new(alloc);
    match decl {
        Decl::Const(decl) => const_specs_flags(scopes, decl.specs.items(), &mut flags)?,
        Decl::Var(decl) => var_specs_flags(scopes, &decl.specs, false, &mut flags)?,
        Decl::Types(decl) => types_flags(decl.specs.items(), &mut flags)?,
        Decl::Func(func) => func_flags(scopes, func, &mut flags)?,
    }
    Ok(flags)
}
