//! A flag for each type of an environment, which says whether the key type of each map in the type
//! is comparable (Go specification, Map types).

ghost use Rattle.std.specs.Prelude.{◌≡◌, ◌<◌, length, slice_get, IfOk};
ghost use Rattle.std.specs.List.{list_all};
ghost use Rattle.type_flags.specs.Comparable.{AreComparable};
ghost use Rattle.type_flags.specs.Flags.{flag_at};
ghost use Rattle.type_flags.specs.Keys.{AreKeyed, keys_option};

use crate::flags::flag;
use go_tree::NoMemory;
use std::alloc::Global;
use type_table::type_relations::Env;
use type_table::{Field, TypeId, TypeNode};

/// For each type of the table, by its number, whether the key type of each map in it is comparable.
/// A defined type is asked where it is declared.
pub fn keyed_types(alloc: Global, env: &Env, comparable: &[bool]) -> Result<Vec<bool>, NoMemory>
    requires count { length comparable.now ≡ length env.now.rows }
    requires are { AreComparable env.now comparable.now }
    ensures count { IfOk result (λ keyed. length keyed.items ≡ length env.now.rows) }
    ensures are { IfOk result (λ keyed. AreKeyed env.now keyed.items) }
{
    let mut keyed = Vec::new(alloc);
    for t in 0..env.len() {
        let has_keys = row_keyed(env, comparable, &keyed, TypeId(t));
        keyed.push(has_keys)?;
    }
    Ok(keyed)
}

/// A type's flag by those of its parts.
pub(crate) fn row_keyed(env: &Env, comparable: &[bool], keyed: &[bool], t: TypeId) -> bool
    requires { t.0 < length env.now.rows }
    ensures { result ≡ keys_option (flag_at comparable.now) (flag_at keyed.now) (slice_get env.now.rows t.0) }
{
    match env.node(t) {
        TypeNode::Pointer(part) | TypeNode::Slice(part) => flag(keyed, *part),
        TypeNode::Map { key, element } => {
            flag(comparable, *key) && (flag(keyed, *key) && flag(keyed, *element))
        }
        TypeNode::Struct(fields) => all_keyed(keyed, &fields.items),
        _ => true,
    }
}

/// Whether the types of all fields have their flags.
pub(crate) fn all_keyed(keyed: &[bool], fields: &[Field]) -> bool
    ensures { result ≡ list_all (λ f. flag_at keyed.now f.of.0) fields.now }
{
    for field in fields {
        if !flag(keyed, field.of) {
            return false;
        }
    }
    true
}
