//! A flag for each type of an environment, which says whether the type is comparable (Go
//! specification, Comparison operators; Struct types).

ghost use Rattle.std.specs.Prelude.{◌≡◌, ◌<◌, true, false, length, IfOk};
ghost use Rattle.std.specs.List.{list_all};
ghost use Rattle.type_table.specs.Rows.{FieldsBelow, field_of};
ghost use Rattle.type_table.specs.TypeRelations.Environment.{IsEnvironment};
ghost use Rattle.type_flags.specs.Comparable.{AreComparable};
ghost use Rattle.type_flags.specs.Flags.{ClosedFlags, SoundFlags, flag_at, missing, row_flag, under_flag};

use crate::order::set_in_order;
use go_tree::NoMemory;
use std::alloc::Global;
use type_table::type_relations::Env;
use type_table::{Field, TypeId, TypeNode};

/// For each type of the table, by its number, whether it is comparable.
pub fn comparable_types(alloc: Global, env: &Env) -> Result<Vec<bool>, NoMemory>
    ensures count { IfOk result (λ flags. length flags.items ≡ length env.now.rows) }
    ensures are { IfOk result (λ flags. AreComparable env.now flags.items) }
{
    let mut flags = vec![in alloc; false; env.len()]?;
    set_in_order(alloc, env, &mut flags)?;
    while set_missing(env, &mut flags) {}
    Ok(flags)
}

/// Sets each flag that follows from the others, in the order of the table, and tells whether one was
/// set.
fn set_missing(env: &Env, flags: &mut [bool]) -> bool
    requires good { IsEnvironment env.now }
    requires count { length flags.old ≡ length env.now.rows }
    ensures count { length flags.new ≡ length flags.old }
    ensures sound { SoundFlags env.now flags.old → SoundFlags env.now flags.new }
    ensures fewer { result ≡ true → missing flags.new < missing flags.old }
    ensures closed { result ≡ false → ClosedFlags env.now flags.new }
{
    let mut changed = false;
    for t in 0..flags.len() {
        if set_flag(env, flags, t) {
            changed = true;
        }
    }
    changed
}

/// Sets the flag of a type where it follows from the others, and tells whether it was set.
pub(crate) fn set_flag(env: &Env, flags: &mut [bool], t: usize) -> bool
    requires good { IsEnvironment env.now }
    requires count { length flags.old ≡ length env.now.rows }
    requires within { t < length flags.old }
    ensures count { length flags.new ≡ length flags.old }
    ensures sound { SoundFlags env.now flags.old → SoundFlags env.now flags.new }
    ensures fewer { result ≡ true → missing flags.new < missing flags.old }
    ensures same { result ≡ false → flags.new ≡ flags.old }
    ensures closed { result ≡ false → row_flag env.now flags.old t ≡ true → flag_at flags.old t ≡ true }
{
    if flags[t] || !row_flag(env, flags, TypeId(t)) {
        return false;
    }
    flags[t] = true;
    true
}

/// What a type's flag would be by those of the types that it holds.
fn row_flag(env: &Env, flags: &[bool], t: TypeId) -> bool
    requires { t.0 < length env.now.rows }
    ensures { result ≡ row_flag env.now flags.now t.0 }
{
    match env.node(t) {
        TypeNode::Basic(_) | TypeNode::Pointer(_) | TypeNode::Untyped(_) => true,
        TypeNode::Named { .. } => under_flag(env, flags, t),
        TypeNode::Struct(fields) => all_flags(env, flags, &fields.items),
        TypeNode::Slice(_) | TypeNode::Map { .. } | TypeNode::Tuple(_) | TypeNode::Nil => false,
    }
}

/// Whether the types of all fields have their flags.
fn all_flags(env: &Env, flags: &[bool], fields: &[Field]) -> bool
    requires { FieldsBelow (length env.now.rows) fields.now }
    ensures { result ≡ list_all (λ f. under_flag env.now flags.now f.of.0) fields.now }
{
    for field in fields {
        if !under_flag(env, flags, field.of) {
            return false;
        }
    }
    true
}

/// The flag of a type's underlying type.
fn under_flag(env: &Env, flags: &[bool], t: TypeId) -> bool
    requires { t.0 < length env.now.rows }
    ensures { result ≡ under_flag env.now flags.now t.0 }
{
    flag(flags, env.under(t))
}

/// The flag of a type; there is none behind the last.
pub(crate) fn flag(flags: &[bool], t: TypeId) -> bool
    ensures { result ≡ flag_at flags.now t.0 }
{
    match flags.get(t.0) {
        Some(flag) => *flag,
        None => false,
    }
}
