//! Parts of expressions.

ghost use Rattle.std.specs.Prelude.{◌≡◌, OnOk, map};
ghost use Rattle.go_tree.specs.View.{expr_of, exprs_of, boxed_expr_option_of, plain_expr_option_of, value_of};
ghost use Rattle.go_tree.specs.View.{held_value_option_of, elem_of, elems_of};
ghost use Rattle.member_uses.specs.PossibleUses.Views.{part_of, written_of};
ghost use Rattle.member_uses.specs.PossibleUses.Parts.{after_expr, after_exprs, after_expr_option, after_value};
ghost use Rattle.member_uses.specs.PossibleUses.Parts.{after_key, after_elems};

use crate::possible_uses::parts::{PartRef, put_expr, put_key_of};
use crate::possible_uses::stmts::stmts_parts;
use crate::possible_uses::types::{sig_parts, type_parts};
use crate::possible_uses::written::{inner_written, keys_written};
use go_tree::{ElemList, Expr, ExprList, NoMemory, TypeExpr, Value};

#[cycle(tree_parts)]
pub(crate) fn expr_parts<'a>(e: &'a Expr, list: &mut Vec<PartRef<'a>>) -> Result<(), NoMemory>
    ensures { OnOk result (map part_of list.new.items
        ≡ after_expr (expr_of e.now) (map part_of list.old.items)) }
{
    match e {
        Expr::Ident { .. } => put_expr(e, list),
        Expr::IntLit { .. } | Expr::RuneLit { .. } | Expr::StrLit { .. } => Ok(()),
        Expr::Composite { of, elems, .. } => {
            type_parts(of, list)?;
            elems_parts(elems, Some(of), list)
        }
        Expr::Selector { base, .. } => {
            expr_parts(base, list)?;
            put_expr(e, list)
        }
        Expr::Index { base, at, .. } => {
            expr_parts(base, list)?;
            expr_parts(at, list)
        }
        Expr::Slice { base, from, to, .. } => {
            expr_parts(base, list)?;
            boxed_option_parts(from, list)?;
            boxed_option_parts(to, list)
        }
        Expr::Call { callee, args, .. } => {
            expr_parts(callee, list)?;
            exprs_parts(args, list)?;
            put_expr(e, list)
        }
        Expr::FuncLit { sig, body, .. } => {
            sig_parts(sig, list)?;
            stmts_parts(&body.stmts, list)
        }
        Expr::TypeOperand { of, .. } => type_parts(of, list),
        Expr::Unary { e, .. } | Expr::Star { e, .. } => expr_parts(e, list),
        Expr::Binary { left, right, .. } => {
            expr_parts(left, list)?;
            expr_parts(right, list)
        }
    }
}

#[cycle(tree_parts)]
fn boxed_option_parts<'a>(
    e: &'a Option<Box<Expr>>,
    list: &mut Vec<PartRef<'a>>,
) -> Result<(), NoMemory>
    ensures { OnOk result (map part_of list.new.items
        ≡ after_expr_option (boxed_expr_option_of e.now) (map part_of list.old.items)) }
{
    match e {
        None => Ok(()),
        Some(e) => expr_parts(e, list),
    }
}

#[cycle(tree_parts)]
pub(crate) fn option_parts<'a>(
    e: &'a Option<Expr>,
    list: &mut Vec<PartRef<'a>>,
) -> Result<(), NoMemory>
    ensures { OnOk result (map part_of list.new.items
        ≡ after_expr_option (plain_expr_option_of e.now) (map part_of list.old.items)) }
{
    match e {
        None => Ok(()),
        Some(e) => expr_parts(e, list),
    }
}

#[cycle(tree_parts)]
pub(crate) fn exprs_parts<'a>(
    exprs: &'a ExprList,
    list: &mut Vec<PartRef<'a>>,
) -> Result<(), NoMemory>
    ensures { OnOk result (map part_of list.new.items
        ≡ after_exprs (exprs_of exprs.now) (map part_of list.old.items)) }
{
    for expr in exprs.items() {
        expr_parts(expr, list)?;
    }
    Ok(())
}

/// The elements of a literal whose type is written so.
#[cycle(tree_parts)]
fn elems_parts<'a>(
    elems: &'a ElemList,
    of: Option<&TypeExpr>,
    list: &mut Vec<PartRef<'a>>,
) -> Result<(), NoMemory>
    ensures { OnOk result (map part_of list.new.items
        ≡ after_elems (written_of of.entry) (elems_of elems.now) (map part_of list.old.items)) }
{
    for elem in elems.items() {
        key_parts(&elem.key, of, list)?;
        value_parts(&elem.value, inner_written(of), list)?;
    }
    Ok(())
}

/// A key; a name may be that of a field.
#[cycle(tree_parts)]
fn key_parts<'a>(
    key: &'a Option<Value>,
    of: Option<&TypeExpr>,
    list: &mut Vec<PartRef<'a>>,
) -> Result<(), NoMemory>
    ensures { OnOk result (map part_of list.new.items
        ≡ after_key (written_of of.entry) (held_value_option_of key.now) (map part_of list.old.items)) }
{
    match key {
        None => Ok(()),
        Some(Value::Plain(e @ Expr::Ident { .. })) => put_key_of(e, of, list),
        Some(key) => value_parts(key, keys_written(of), list),
    }
}

#[cycle(tree_parts)]
fn value_parts<'a>(
    value: &'a Value,
    of: Option<&TypeExpr>,
    list: &mut Vec<PartRef<'a>>,
) -> Result<(), NoMemory>
    ensures { OnOk result (map part_of list.new.items
        ≡ after_value (written_of of.entry) (value_of value.now) (map part_of list.old.items)) }
{
    match value {
        Value::Plain(e) => expr_parts(e, list),
        Value::Braced { elems, .. } => elems_parts(elems, of, list),
    }
}
