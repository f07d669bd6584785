//! Flags of a table that grows: those of types that are interned later follow from those of their
//! parts (Go specification, Comparison operators; Map types).

ghost use Rattle.std.specs.Prelude.{◌≡◌, ◌<◌, ◌≤◌, length, slice_get, IfOk, OnOk};
ghost use Rattle.type_flags.specs.Comparable.{AreComparable};
ghost use Rattle.type_flags.specs.Flags.{flag_at};
ghost use Rattle.type_flags.specs.Keys.{AreKeyed};
ghost use Rattle.type_flags.specs.Grown.{AreFlags, AreFlagsSoFar, DefinedBelow, later_option};

use crate::flags::{comparable_types, flag};
use crate::keys::{all_keyed, keyed_types, row_keyed};
use go_tree::NoMemory;
use std::alloc::Global;
use type_table::type_relations::Env;
use type_table::{TypeId, TypeNode};

/// Which types are comparable, and in which each map has a comparable key type, by their numbers.
#[derive(Drop)]
pub struct TypeFlags {
    pub comparable: Vec<bool>,
    pub keyed: Vec<bool>,
}

impl TypeFlags {
    /// The flags of all types of an environment.
    pub fn of(alloc: Global, env: &Env) -> Result<TypeFlags, NoMemory>
        ensures { IfOk result (AreFlags env.now) }
    {
        let comparable = comparable_types(alloc, env)?;
        let keyed = keyed_types(alloc, env, &comparable)?;
        Ok(TypeFlags { comparable, keyed })
    }

    /// Whether each map in a type has a comparable key type (Go specification, Map types).
    pub fn has_keys(&self, t: TypeId) -> bool
        ensures { result ≡ flag_at self.now.keyed.items t.0 }
    {
        flag(&self.keyed, t)
    }

    /// Whether a type is comparable (Go specification, Comparison operators).
    pub fn is_comparable(&self, t: TypeId) -> bool
        ensures { result ≡ flag_at self.now.comparable.items t.0 }
    {
        flag(&self.comparable, t)
    }

    /// Adds the flags of the types behind those that have flags, none of which is defined.
    pub fn extend(&mut self, env: &Env) -> Result<(), NoMemory>
        requires flags { AreFlagsSoFar env.now self.old }
        requires defined { DefinedBelow (length self.old.comparable.items) env.now.defined }
        ensures so_far { AreFlagsSoFar env.now self.new }
        ensures defined { DefinedBelow (length self.new.comparable.items) env.now.defined }
        ensures are { OnOk result (AreFlags env.now self.new) }
    {
        extend_comparable(env, &mut self.comparable)?;
        extend_keyed(env, &self.comparable, &mut self.keyed)
    }
}

/// Adds the flags of comparable types that are missing.
fn extend_comparable(env: &Env, flags: &mut Vec<bool>) -> Result<(), NoMemory>
    requires few { length flags.old.items ≤ length env.now.rows }
    requires are { AreComparable env.now flags.old.items }
    requires defined { DefinedBelow (length flags.old.items) env.now.defined }
    ensures few { length flags.new.items ≤ length env.now.rows }
    ensures are { AreComparable env.now flags.new.items }
    ensures defined { DefinedBelow (length flags.new.items) env.now.defined }
    ensures all { OnOk result (length flags.new.items ≡ length env.now.rows) }
{
    for t in flags.len()..env.len() {
        let later = later_flag(env, flags, TypeId(t));
        flags.push(later)?;
    }
    Ok(())
}

/// Adds the flags of types with comparable keys that are missing.
fn extend_keyed(env: &Env, comparable: &[bool], keyed: &mut Vec<bool>) -> Result<(), NoMemory>
    requires count { length comparable.now ≡ length env.now.rows }
    requires comparable { AreComparable env.now comparable.now }
    requires few { length keyed.old.items ≤ length env.now.rows }
    requires are { AreKeyed env.now keyed.old.items }
    ensures few { length keyed.new.items ≤ length env.now.rows }
    ensures are { AreKeyed env.now keyed.new.items }
    ensures all { OnOk result (length keyed.new.items ≡ length env.now.rows) }
{
    for t in keyed.len()..env.len() {
        let has_keys = row_keyed(env, comparable, keyed, TypeId(t));
        keyed.push(has_keys)?;
    }
    Ok(())
}

/// Whether a type that isn't defined is comparable, by the flags of its parts.
fn later_flag(env: &Env, flags: &[bool], t: TypeId) -> bool
    requires { t.0 < length env.now.rows }
    ensures { result ≡ later_option (flag_at flags.now) (slice_get env.now.rows t.0) }
{
    match env.node(t) {
        TypeNode::Basic(_) | TypeNode::Pointer(_) | TypeNode::Untyped(_) => true,
        TypeNode::Struct(fields) => all_keyed(flags, &fields.items),
        _ => false,
    }
}
