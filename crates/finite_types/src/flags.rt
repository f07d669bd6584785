//! A flag for each type of an environment, which says whether the type is finite: it reaches itself
//! neither by names nor by fields alone (Go specification, Struct types; Underlying types).

ghost use Rattle.std.specs.Prelude.{◌≡◌, ◌<◌, List, true, false, length, IfOk};
ghost use Rattle.std.specs.List.{list_all};
ghost use Rattle.type_table.specs.Rows.{field_of};
ghost use Rattle.type_table.specs.TypeRelations.Environment.{IsEnvironment};
ghost use Rattle.type_flags.specs.Flags.{flag_at, missing};
ghost use Rattle.defined_types.specs.DeclaredTypes.{AreDeclared};
ghost use Rattle.defined_types.specs.declared.declared.DeclaredType.{DeclaredType};
ghost use Rattle.finite_types.specs.Finite.{AreFinite};
ghost use Rattle.finite_types.specs.Flags.{ClosedFlags, IsNext, SoundFlags, row_flag};

use crate::order::set_in_order;
use defined_types::DeclaredType;
use go_tree::NoMemory;
use named_types::{next_numbers, number_at};
use std::alloc::Global;
use type_table::type_relations::Env;
use type_table::{Field, TypeId, TypeNode};

/// For each type of the table, by its number, whether it is finite.
pub fn finite_types(
    alloc: Global,
    types: &Env,
    declared: &[DeclaredType],
) -> Result<Vec<bool>, NoMemory>
    requires { AreDeclared types.now declared.now }
    ensures count { IfOk result (λ flags. length flags.items ≡ length types.now.rows) }
    ensures are { IfOk result (λ flags. AreFinite types.now declared.now flags.items) }
{
    let next = next_numbers(alloc, types, declared)?;
    let mut flags = vec![in alloc; false; types.len()]?;
    set_in_order(alloc, types, &next, &mut flags)?;
    while set_missing(types, &next, &mut flags) {}
    Ok(flags)
}

/// The flag of a type; there is none behind the last.
pub fn is_finite(flags: &[bool], t: TypeId) -> bool
    ensures { result ≡ flag_at flags.now t.0 }
{
    match flags.get(t.0) {
        Some(flag) => *flag,
        None => false,
    }
}

/// Sets each flag that follows from the others, in the order of the table, and tells whether one was
/// set.
fn set_missing(types: &Env, next: &[usize], flags: &mut [bool]) -> bool
    requires good { IsEnvironment types.now }
    requires count { length flags.old ≡ length types.now.rows }
    ensures count { length flags.new ≡ length flags.old }
    ensures sound { (ds : List DeclaredType) → IsNext types.now ds next.now
        → SoundFlags types.now ds flags.old → SoundFlags types.now ds flags.new }
    ensures fewer { result ≡ true → missing flags.new < missing flags.old }
    ensures closed { result ≡ false → ClosedFlags types.now next.now flags.new }
{
    let mut changed = false;
    for t in 0..flags.len() {
        if set_flag(types, next, flags, t) {
            changed = true;
        }
    }
    changed
}

/// Sets the flag of a type where it follows from the others, and tells whether it was set.
pub(crate) fn set_flag(types: &Env, next: &[usize], flags: &mut [bool], t: usize) -> bool
    requires good { IsEnvironment types.now }
    requires count { length flags.old ≡ length types.now.rows }
    requires within { t < length flags.old }
    ensures count { length flags.new ≡ length flags.old }
    ensures sound { (ds : List DeclaredType) → IsNext types.now ds next.now
        → SoundFlags types.now ds flags.old → SoundFlags types.now ds flags.new }
    ensures fewer { result ≡ true → missing flags.new < missing flags.old }
    ensures same { result ≡ false → flags.new ≡ flags.old }
    ensures closed { result ≡ false → row_flag types.now next.now flags.old t ≡ true
        → flag_at flags.old t ≡ true }
{
    if flags[t] || !row_flag(types, next, flags, TypeId(t)) {
        return false;
    }
    flags[t] = true;
    true
}

/// What a type's flag would be by those of the types that it holds.
fn row_flag(types: &Env, next: &[usize], flags: &[bool], t: TypeId) -> bool
    requires { t.0 < length types.now.rows }
    ensures { result ≡ row_flag types.now next.now flags.now t.0 }
{
    match types.node(t) {
        TypeNode::Named { .. } => is_finite(flags, TypeId(number_at(next, t.0))),
        TypeNode::Struct(fields) => all_finite(flags, &fields.items),
        _ => true,
    }
}

/// Whether the types of all fields have their flags.
pub(crate) fn all_finite(flags: &[bool], fields: &[Field]) -> bool
    ensures { result ≡ list_all (λ f. flag_at flags.now f.of.0) fields.now }
{
    for field in fields {
        if !is_finite(flags, field.of) {
            return false;
        }
    }
    true
}
