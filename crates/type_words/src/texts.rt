//! The texts of types.

ghost use Rattle.std.specs.Prelude.{◌≡◌, ◌<◌, ◌++◌, codes, false, length, IfOk, OnOk};
ghost use Rattle.type_table.specs.Rows.{FieldsBelow, IdsBelow};
ghost use Rattle.type_table.specs.TypeRelations.Environment.{env_type};
ghost use Rattle.type_words.specs.TypeText.{between, type_text};
ghost use Rattle.type_words.specs.Written.{field_rows, type_rows};

use crate::faults::TypeFault;
use crate::kinds::kind_name;
use crate::names::{Home, add, add_name};
use std::alloc::Global;
use type_table::type_relations::Env;
use type_table::{Field, TypeId, TypeNode};

/// How deeply a type may nest.
pub const MAX_TYPE_DEPTH: u32 = 1_000;

/// Adds a type that nests so deeply at most.
#[cycle(texts)]
pub(crate) fn add_type(
    text: &mut Vec<u8>,
    types: &Env,
    home: &Home,
    t: TypeId,
    depth: u32,
) -> Result<(), TypeFault>
    requires { t.0 < length types.now.rows }
    ensures { OnOk result (text.new.items
        ≡ text.old.items ++ type_text home.now.number home.now.paths.now (env_type types.now t.0)) }
{
    if depth == 0 {
        return Err(TypeFault::TooLarge);
    }
    match types.node(t) {
        TypeNode::Basic(kind) => add(text, kind_name(*kind)),
        TypeNode::Untyped(kind) => add(text, kind_name(*kind)),
        TypeNode::Nil => add(text, b"untyped nil"),
        TypeNode::Named { package, name } => add_name(text, home, *package, name.items()),
        TypeNode::Pointer(to) => add_behind(text, types, home, b"*", *to, depth - 1),
        TypeNode::Slice(element) => add_behind(text, types, home, b"[]", *element, depth - 1),
        TypeNode::Map { key, element } => add_map(text, types, home, *key, *element, depth - 1),
        TypeNode::Struct(fields) => add_struct(text, types, home, &fields.items, depth - 1),
        TypeNode::Tuple(members) => add_tuple(text, types, home, &members.items, depth - 1),
    }
}

/// Adds bytes and a type behind them.
#[cycle(texts)]
fn add_behind(
    text: &mut Vec<u8>,
    types: &Env,
    home: &Home,
    bytes: &[u8],
    t: TypeId,
    depth: u32,
) -> Result<(), TypeFault>
    requires { t.0 < length types.now.rows }
    ensures { OnOk result (text.new.items ≡ text.old.items ++ bytes.now
        ++ type_text home.now.number home.now.paths.now (env_type types.now t.0)) }
{
    add(text, bytes)?;
    add_type(text, types, home, t, depth)
}

/// Adds a map type.
#[cycle(texts)]
fn add_map(
    text: &mut Vec<u8>,
    types: &Env,
    home: &Home,
    key: TypeId,
    element: TypeId,
    depth: u32,
) -> Result<(), TypeFault>
    requires key { key.0 < length types.now.rows }
    requires element { element.0 < length types.now.rows }
    ensures { OnOk result (text.new.items ≡ text.old.items ++ codes "map["
        ++ type_text home.now.number home.now.paths.now (env_type types.now key.0) ++ codes "]"
        ++ type_text home.now.number home.now.paths.now (env_type types.now element.0)) }
{
    add(text, b"map[")?;
    add_type(text, types, home, key, depth)?;
    add(text, b"]")?;
    add_type(text, types, home, element, depth)
}

/// Adds a struct type.
#[cycle(texts)]
fn add_struct(
    text: &mut Vec<u8>,
    types: &Env,
    home: &Home,
    fields: &[Field],
    depth: u32,
) -> Result<(), TypeFault>
    requires { FieldsBelow (length types.now.rows) fields.now }
    ensures { OnOk result (text.new.items ≡ text.old.items ++ codes "struct{"
        ++ field_rows home.now.number home.now.paths.now types.now false fields.now ++ codes "}") }
{
    add(text, b"struct{")?;
    add_fields(text, types, home, fields, depth)?;
    add(text, b"}")
}

/// Adds what stands between two of a list.
pub(crate) fn separate(text: &mut Vec<u8>, later: bool, mark: &[u8]) -> Result<(), TypeFault>
    ensures { OnOk result (text.new.items ≡ text.old.items ++ between later mark.now) }
{
    if later { add(text, mark) } else { Ok(()) }
}

/// Adds a field.
#[cycle(texts)]
fn add_field(
    text: &mut Vec<u8>,
    types: &Env,
    home: &Home,
    field: &Field,
    later: bool,
    depth: u32,
) -> Result<(), TypeFault>
    requires { field.now.of.0 < length types.now.rows }
    ensures { OnOk result (text.new.items ≡ text.old.items ++ between later (codes "; ") ++ field.now.name
        ++ codes " " ++ type_text home.now.number home.now.paths.now (env_type types.now field.now.of.0)) }
{
    separate(text, later, b"; ")?;
    add(text, field.name.items())?;
    add(text, b" ")?;
    add_type(text, types, home, field.of, depth)
}

/// Adds the fields of a struct.
#[cycle(texts)]
fn add_fields(
    text: &mut Vec<u8>,
    types: &Env,
    home: &Home,
    fields: &[Field],
    depth: u32,
) -> Result<(), TypeFault>
    requires { FieldsBelow (length types.now.rows) fields.now }
    ensures { OnOk result (text.new.items ≡ text.old.items
        ++ field_rows home.now.number home.now.paths.now types.now false fields.now) }
{
    let mut later = false;
    for field in fields {
        add_field(text, types, home, field, later, depth)?;
        later = true;
    }
    Ok(())
}

/// Adds types in parentheses.
#[cycle(texts)]
pub(crate) fn add_tuple(
    text: &mut Vec<u8>,
    types: &Env,
    home: &Home,
    members: &[TypeId],
    depth: u32,
) -> Result<(), TypeFault>
    requires { IdsBelow (length types.now.rows) members.now }
    ensures { OnOk result (text.new.items ≡ text.old.items ++ codes "("
        ++ type_rows home.now.number home.now.paths.now types.now false members.now ++ codes ")") }
{
    add(text, b"(")?;
    add_members(text, types, home, members, depth)?;
    add(text, b")")
}

/// Adds a type of several.
#[cycle(texts)]
fn add_member(
    text: &mut Vec<u8>,
    types: &Env,
    home: &Home,
    member: TypeId,
    later: bool,
    depth: u32,
) -> Result<(), TypeFault>
    requires { member.0 < length types.now.rows }
    ensures { OnOk result (text.new.items ≡ text.old.items ++ between later (codes ", ")
        ++ type_text home.now.number home.now.paths.now (env_type types.now member.0)) }
{
    separate(text, later, b", ")?;
    add_type(text, types, home, member, depth)
}

/// Adds types.
#[cycle(texts)]
fn add_members(
    text: &mut Vec<u8>,
    types: &Env,
    home: &Home,
    members: &[TypeId],
    depth: u32,
) -> Result<(), TypeFault>
    requires { IdsBelow (length types.now.rows) members.now }
    ensures { OnOk result (text.new.items ≡ text.old.items
        ++ type_rows home.now.number home.now.paths.now types.now false members.now) }
{
    let mut later = false;
    for member in members {
        add_member(text, types, home, *member, later, depth)?;
        later = true;
    }
    Ok(())
}

/// The text of a type on one line, as it stands in a file of the package. `TooLarge` where the text would have more
/// than `MAX_TYPE_BYTES` bytes or the type nests more deeply than `MAX_TYPE_DEPTH`.
pub fn type_text(alloc: Global, types: &Env, home: &Home, t: TypeId) -> Result<Vec<u8>, TypeFault>
    requires { t.0 < length types.now.rows }
    ensures { IfOk result (λ text. text.items
        ≡ type_text home.now.number home.now.paths.now (env_type types.now t.0)) }
{
    let mut text = Vec::new(alloc);
    add_type(&mut text, types, home, t, MAX_TYPE_DEPTH)?;
    Ok(text)
}
