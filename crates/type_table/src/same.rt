//! Which rows are the same, and how they are hashed.

ghost use Rattle.std.specs.Prelude.{◌≡◌, ◌↔◌, IsTrue};
ghost use Rattle.std.specs.Cmp.{partial_equiv_from_equiv};
ghost use Rattle.type_table.specs.Rows.{field_of, row_of};
ghost use Rattle.type_table.specs.SameRows.{same_field, same_row};
ghost use Rattle.type_table.specs.RowWrites.{field_writes, node_writes};
ghost use Rattle.type_table.specs.RowEquality.{field_equiv, node_equiv, fields_alike, nodes_alike};

use crate::nodes::{Field, TypeId, TypeNode};
use std::hash::{Hash, Hasher};

/// Whether two rows are the same.
pub(crate) fn same_node(a: &TypeNode, b: &TypeNode) -> bool
    ensures { IsTrue result ↔ a.now ≡ b.now }
{
    match a {
        TypeNode::Basic(j) => match b {
            TypeNode::Basic(k) => *j == *k,
            _ => false,
        },
        TypeNode::Named {
            package: p,
            name: n,
        } => match b {
            TypeNode::Named {
                package: q,
                name: m,
            } => *p == *q && n.items() == m.items(),
            _ => false,
        },
        TypeNode::Pointer(t) => match b {
            TypeNode::Pointer(u) => *t == *u,
            _ => false,
        },
        TypeNode::Slice(t) => match b {
            TypeNode::Slice(u) => *t == *u,
            _ => false,
        },
        TypeNode::Map { key: k, element: t } => match b {
            TypeNode::Map { key: j, element: u } => *k == *j && *t == *u,
            _ => false,
        },
        TypeNode::Struct(fs) => match b {
            TypeNode::Struct(gs) => same_fields(&fs.items, &gs.items),
            _ => false,
        },
        TypeNode::Tuple(ts) => match b {
            TypeNode::Tuple(us) => same_types(&ts.items, &us.items),
            _ => false,
        },
        TypeNode::Untyped(j) => match b {
            TypeNode::Untyped(k) => *j == *k,
            _ => false,
        },
        TypeNode::Nil => matches!(b, TypeNode::Nil),
    }
}

fn same_types(a: &[TypeId], b: &[TypeId]) -> bool
    ensures { IsTrue result ↔ a.now ≡ b.now }
{
    if a.len() != b.len() {
        return false;
    }
    for (i, t) in a.iter().enumerate() {
        if *t != b[i] {
            return false;
        }
    }
    true
}

fn same_fields(a: &[Field], b: &[Field]) -> bool
    ensures { IsTrue result ↔ a.now ≡ b.now }
{
    if a.len() != b.len() {
        return false;
    }
    for (i, field) in a.iter().enumerate() {
        if !same_field(field, &b[i]) {
            return false;
        }
    }
    true
}

fn same_field(a: &Field, b: &Field) -> bool
    ensures { IsTrue result ↔ a.now ≡ b.now }
{
    a.of == b.of && a.package == b.package && a.name.items() == b.name.items()
}

impl PartialEq for Field {
    ghost eq = { λ a b. same_field (field_of a) (field_of b) };

    ghost laws = { partial_equiv_from_equiv field_equiv };

    fn eq(&self, other: &Field) -> bool {
        same_field(self, other)
    }
}

impl Eq for Field {
    ghost laws = { field_equiv };
}

impl Hash for Field {
    ghost hash_input = { field_writes };

    ghost respects_eq = { fields_alike };

    fn hash<H: Hasher>(&self, state: &mut H) {
        self.name.items().hash(state);
        self.package.hash(state);
        self.of.hash(state);
    }
}

impl PartialEq for TypeNode {
    ghost eq = { λ a b. same_row (row_of a) (row_of b) };

    ghost laws = { partial_equiv_from_equiv node_equiv };

    fn eq(&self, other: &TypeNode) -> bool {
        same_node(self, other)
    }
}

impl Eq for TypeNode {
    ghost laws = { node_equiv };
}

impl Hash for TypeNode {
    ghost hash_input = { node_writes };

    ghost respects_eq = { nodes_alike };

    fn hash<H: Hasher>(&self, state: &mut H) {
        match self {
            TypeNode::Basic(_) => state.write_u8(0),
            TypeNode::Named { package, name } => {
                state.write_u8(1);
                package.hash(state);
                name.items().hash(state);
            }
            TypeNode::Pointer(t) => {
                state.write_u8(2);
                t.hash(state);
            }
            TypeNode::Slice(t) => {
                state.write_u8(3);
                t.hash(state);
            }
            TypeNode::Map { key, element } => {
                state.write_u8(4);
                key.hash(state);
                element.hash(state);
            }
            TypeNode::Struct(fields) => {
                state.write_u8(5);
                fields.items.hash(state);
            }
            TypeNode::Tuple(types) => {
                state.write_u8(6);
                types.items.hash(state);
            }
            TypeNode::Untyped(_) => state.write_u8(7),
            TypeNode::Nil => state.write_u8(8),
        }
    }
}
