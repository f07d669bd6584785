//! What is written of the types of composite literals.

ghost use Rattle.std.specs.Prelude.{◌≡◌, Some};
ghost use Rattle.go_tree.specs.View.{type_of};
ghost use Rattle.member_uses.specs.PossibleUses.Views.{written_of};
ghost use Rattle.member_uses.specs.PossibleUses.Written.{has_no_fields, inner_written, keys_written, literal_written};

use go_tree::TypeExpr;

fn is_without_fields(of: &TypeExpr) -> bool
    ensures { result ≡ has_no_fields (Some (type_of of.now)) }
{
    match of {
        TypeExpr::Slice { .. } | TypeExpr::Map { .. } => true,
        TypeExpr::Named { .. } | TypeExpr::Pointer { .. } | TypeExpr::Struct { .. } => false,
    }
}

/// Whether the literal is written as one of a slice or a map, so that none of its keys names a field.
pub(crate) fn has_no_fields(of: Option<&TypeExpr>) -> bool
    ensures { result ≡ has_no_fields (written_of of.entry) }
{
    match of {
        Some(of) => is_without_fields(of),
        None => false,
    }
}

/// The type of a literal in braces alone where this type is wanted.
fn literal_written(of: &TypeExpr) -> Option<&TypeExpr>
    ensures { written_of result ≡ literal_written (type_of of.now) }
{
    match of {
        TypeExpr::Named { .. } => None,
        TypeExpr::Pointer { to, .. } => Some(&**to),
        TypeExpr::Slice { .. } | TypeExpr::Map { .. } | TypeExpr::Struct { .. } => Some(of),
    }
}

fn written_inside(of: &TypeExpr) -> Option<&TypeExpr>
    ensures { written_of result ≡ inner_written (Some (type_of of.now)) }
{
    match of {
        TypeExpr::Slice { of, .. } | TypeExpr::Map { of, .. } => literal_written(of),
        TypeExpr::Named { .. } | TypeExpr::Pointer { .. } | TypeExpr::Struct { .. } => None,
    }
}

/// That of such literals among the elements of a literal.
pub(crate) fn inner_written(of: Option<&TypeExpr>) -> Option<&TypeExpr>
    ensures { written_of result ≡ inner_written (written_of of.entry) }
{
    match of {
        Some(of) => written_inside(of),
        None => None,
    }
}

fn written_before_colons(of: &TypeExpr) -> Option<&TypeExpr>
    ensures { written_of result ≡ keys_written (Some (type_of of.now)) }
{
    match of {
        TypeExpr::Map { key, .. } => literal_written(key),
        TypeExpr::Named { .. }
        | TypeExpr::Pointer { .. }
        | TypeExpr::Slice { .. }
        | TypeExpr::Struct { .. } => None,
    }
}

/// And among its keys.
pub(crate) fn keys_written(of: Option<&TypeExpr>) -> Option<&TypeExpr>
    ensures { written_of result ≡ keys_written (written_of of.entry) }
{
    match of {
        Some(of) => written_before_colons(of),
        None => None,
    }
}
