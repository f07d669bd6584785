//! Flags of a table that grows: those of types that are interned later follow from those of their parts
//! (Go specification, Struct types; Underlying types).

ghost use Rattle.std.specs.Prelude.{◌≡◌, ◌<◌, ◌≤◌, List, false, length, slice_get, IfOk, OnOk};
ghost use Rattle.type_flags.specs.Flags.{flag_at};
ghost use Rattle.defined_types.specs.DeclaredTypes.{AreDeclared};
ghost use Rattle.defined_types.specs.declared.declared.DeclaredType.{DeclaredType};
ghost use Rattle.finite_types.specs.Flags.{FiniteSoFar, row_option};

use crate::flags::{all_finite, finite_types};
use defined_types::DeclaredType;
use go_tree::NoMemory;
use std::alloc::Global;
use type_table::type_relations::Env;
use type_table::{TypeId, TypeNode};

/// Whether a type that isn't declared is finite, by the flags of its parts.
fn later_flag(types: &Env, flags: &[bool], t: TypeId) -> bool
    requires { t.0 < length types.now.rows }
    ensures { result ≡ row_option false (flag_at flags.now) (slice_get types.now.rows t.0) }
{
    match types.node(t) {
        TypeNode::Named { .. } => false,
        TypeNode::Struct(fields) => all_finite(flags, &fields.items),
        _ => true,
    }
}

/// The flags of all types of the table, which `extend_finite` may add to.
pub fn first_finite(
    alloc: Global,
    types: &Env,
    declared: &[DeclaredType],
) -> Result<Vec<bool>, NoMemory>
    requires { AreDeclared types.now declared.now }
    ensures { IfOk result (λ flags. FiniteSoFar types.now declared.now flags.items) }
{
    finite_types(alloc, types, declared)
}

/// Adds the flags of types that were interned later, none of which is declared.
pub fn extend_finite(types: &Env, flags: &mut Vec<bool>) -> Result<(), NoMemory>
    requires few { length flags.old.items ≤ length types.now.rows }
    ensures few { length flags.new.items ≤ length types.now.rows }
    ensures so_far { (ds : List DeclaredType)
        → FiniteSoFar types.now ds flags.old.items → FiniteSoFar types.now ds flags.new.items }
    ensures all { OnOk result (length flags.new.items ≡ length types.now.rows) }
{
    for t in flags.len()..types.len() {
        let later = later_flag(types, flags, TypeId(t));
        flags.push(later)?;
    }
    Ok(())
}
