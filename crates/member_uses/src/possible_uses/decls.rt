//! Parts of declarations.

ghost use Rattle.std.specs.Prelude.{◌≡◌, IfOk, OnOk, map};
ghost use Rattle.std.specs.Option.{option_map};
ghost use Rattle.go_tree.specs.FileView.{type_spec_of, receiver_of, func_of, decl_of};
ghost use Rattle.member_uses.specs.PossibleUses.Views.{part_of};
ghost use Rattle.member_uses.specs.PossibleUses.Parts.{after_types, after_receiver, after_func, parts_of};

use crate::possible_uses::parts::{PartRef, put_receiver};
use crate::possible_uses::stmts::{const_specs_parts, stmts_parts, var_specs_parts};
use crate::possible_uses::types::{sig_parts, type_parts};
use go_tree::{Decl, FuncDecl, NoMemory, Receiver, TypeSpec};
use std::alloc::Global;

fn types_parts<'a>(specs: &'a [TypeSpec], list: &mut Vec<PartRef<'a>>) -> Result<(), NoMemory>
    ensures { OnOk result (map part_of list.new.items
        ≡ after_types (map type_spec_of specs.now) (map part_of list.old.items)) }
{
    for spec in specs {
        type_parts(&spec.of, list)?;
    }
    Ok(())
}

fn receiver_parts<'a>(
    receiver: &'a Option<Receiver>,
    list: &mut Vec<PartRef<'a>>,
) -> Result<(), NoMemory>
    ensures { OnOk result (map part_of list.new.items
        ≡ after_receiver (option_map receiver_of receiver.now) (map part_of list.old.items)) }
{
    match receiver {
        None => Ok(()),
        Some(receiver) => put_receiver(&receiver.of, list),
    }
}

fn func_parts<'a>(func: &'a FuncDecl, list: &mut Vec<PartRef<'a>>) -> Result<(), NoMemory>
    ensures { OnOk result (map part_of list.new.items
        ≡ after_func (func_of func.now) (map part_of list.old.items)) }
{
    receiver_parts(&func.receiver, list)?;
    sig_parts(&func.sig, list)?;
    stmts_parts(&func.body.stmts, list)
}

/// The parts of a declaration that may be uses of a marked declaration, in the order of their ends: names, names behind
/// dots, calls, and names of types; keys that are names among them, told apart where they may be those of fields. An
/// error where memory is refused. Linear in the declaration.
pub fn decl_parts<'a>(alloc: Global, decl: &'a Decl) -> Result<Vec<PartRef<'a>>, NoMemory>
    ensures { IfOk result (λ list. map part_of list.items ≡ parts_of (decl_of decl.now)) }
{
    let mut list = Vec::new(alloc);
    match decl {
        Decl::Const(decl) => const_specs_parts(&decl.specs, &mut list)?,
        Decl::Var(decl) => var_specs_parts(&decl.specs, &mut list)?,
        Decl::Types(decl) => types_parts(decl.specs.items(), &mut list)?,
        Decl::Func(func) => func_parts(func, &mut list)?,
    }
    Ok(list)
}
