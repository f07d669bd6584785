//! A part that may be a use.

ghost use Rattle.std.specs.Prelude.{◌≡◌, ◌++◌, ◌∷◌, [], OnOk, map};
ghost use Rattle.go_tree.specs.View.{expr_of, type_of, name_at_of};
ghost use Rattle.run_rules.specs.Sites.{an_expr, a_type_part};
ghost use Rattle.member_uses.specs.PossibleUses.Candidates.{plain_part, key_of, key_part, receiver_part};
ghost use Rattle.member_uses.specs.PossibleUses.Views.{part_of, written_of};

use crate::possible_uses::written::has_no_fields;
use go_tree::{Expr, NameAt, NoMemory, TypeExpr};

/// A part of a declaration: an expression; a name that is the key of an element, and may be that of a field, since the
/// literal isn't written as one of a slice or a map (Go specification, Composite literals); the name of a type; or the
/// name of a receiver's type.
#[derive(Clone, Copy)]
pub enum PartRef<'a> {
    Expr(&'a Expr),
    Key(&'a Expr),
    Type(&'a TypeExpr),
    Receiver(&'a NameAt),
}

pub(crate) fn put_expr<'a>(e: &'a Expr, list: &mut Vec<PartRef<'a>>) -> Result<(), NoMemory>
    ensures { OnOk result (map part_of list.new.items ≡ map part_of list.old.items ++ plain_part (an_expr (expr_of e.now)) ∷ []) }
{
    list.push(PartRef::Expr(e))?;
    Ok(())
}

fn put_key<'a>(e: &'a Expr, list: &mut Vec<PartRef<'a>>) -> Result<(), NoMemory>
    ensures { OnOk result (map part_of list.new.items ≡ map part_of list.old.items ++ key_part (expr_of e.now) ∷ []) }
{
    list.push(PartRef::Key(e))?;
    Ok(())
}

/// A name that is a key of a literal which is written so.
pub(crate) fn put_key_of<'a>(
    e: &'a Expr,
    of: Option<&TypeExpr>,
    list: &mut Vec<PartRef<'a>>,
) -> Result<(), NoMemory>
    ensures { OnOk result (map part_of list.new.items
        ≡ map part_of list.old.items ++ key_of (written_of of.entry) (expr_of e.now) ∷ []) }
{
    if has_no_fields(of) {
        put_expr(e, list)
    } else {
        put_key(e, list)
    }
}

pub(crate) fn put_type<'a>(t: &'a TypeExpr, list: &mut Vec<PartRef<'a>>) -> Result<(), NoMemory>
    ensures { OnOk result (map part_of list.new.items
        ≡ map part_of list.old.items ++ plain_part (a_type_part (type_of t.now)) ∷ []) }
{
    list.push(PartRef::Type(t))?;
    Ok(())
}

pub(crate) fn put_receiver<'a>(
    name: &'a NameAt,
    list: &mut Vec<PartRef<'a>>,
) -> Result<(), NoMemory>
    ensures { OnOk result (map part_of list.new.items
        ≡ map part_of list.old.items ++ plain_part (receiver_part (name_at_of name.now)) ∷ []) }
{
    list.push(PartRef::Receiver(name))?;
    Ok(())
}
