//! Names that expressions use.

ghost use Rattle.std.specs.Prelude.{◌≡◌, OnOk};
ghost use Rattle.go_tree.specs.View.{boxed_expr_option_of, elems_of, expr_of, exprs_of, held_value_option_of};
ghost use Rattle.go_tree.specs.View.{plain_expr_option_of, value_of};
ghost use Rattle.used_names.specs.Walks.{after_elems, after_expr, after_expr_option, after_exprs, after_key};
ghost use Rattle.used_names.specs.Walks.{after_lefts, after_value, after_whole};
ghost use Rattle.name_uses.specs.Walk.{walk_of, walked};

use crate::body_uses::stmts::stmts_uses;
use crate::{NameUses, begin_sig, sig_uses, type_uses};
use go_tree::{ElemList, Expr, ExprList, NoMemory, Value};

/// The names that an expression uses.
#[cycle(tree_uses)]
pub(crate) fn expr_uses(uses: &mut NameUses, e: &Expr) -> Result<(), NoMemory>
    ensures { OnOk result (walk_of uses.new ≡ walked (after_expr (expr_of e.now)) (walk_of uses.old)) }
{
    match e {
        Expr::Ident { name, .. } => uses.use_name(name),
        Expr::IntLit { .. } | Expr::RuneLit { .. } | Expr::StrLit { .. } => Ok(()),
        Expr::Composite { of, elems, .. } => {
            type_uses(uses, of)?;
            uses.open_literal(of)?;
            elems_uses(uses, elems)?;
            uses.close_literal();
            Ok(())
        }
        Expr::Selector { base, .. } => expr_uses(uses, base),
        Expr::Index { base, at, .. } => {
            expr_uses(uses, base)?;
            expr_uses(uses, at)
        }
        Expr::Slice { base, from, to, .. } => {
            expr_uses(uses, base)?;
            boxed_option_uses(uses, from)?;
            boxed_option_uses(uses, to)
        }
        Expr::Call { callee, args, .. } => {
            expr_uses(uses, callee)?;
            exprs_uses(uses, args)
        }
        Expr::FuncLit { sig, body, .. } => {
            sig_uses(uses, sig)?;
            let depth = uses.depth();
            begin_sig(uses, sig)?;
            stmts_uses(uses, &body.stmts)?;
            uses.leave(depth);
            Ok(())
        }
        Expr::TypeOperand { of, .. } => type_uses(uses, of),
        Expr::Unary { e, .. } | Expr::Star { e, .. } => expr_uses(uses, e),
        Expr::Binary { left, right, .. } => {
            expr_uses(uses, left)?;
            expr_uses(uses, right)
        }
    }
}

#[cycle(tree_uses)]
fn boxed_option_uses(uses: &mut NameUses, e: &Option<Box<Expr>>) -> Result<(), NoMemory>
    ensures { OnOk result (walk_of uses.new ≡ walked (after_expr_option (boxed_expr_option_of e.now)) (walk_of uses.old)) }
{
    match e {
        None => Ok(()),
        Some(e) => expr_uses(uses, e),
    }
}

#[cycle(tree_uses)]
pub(crate) fn option_uses(uses: &mut NameUses, e: &Option<Expr>) -> Result<(), NoMemory>
    ensures { OnOk result (walk_of uses.new ≡ walked (after_expr_option (plain_expr_option_of e.now)) (walk_of uses.old)) }
{
    match e {
        None => Ok(()),
        Some(e) => expr_uses(uses, e),
    }
}

/// The names that expressions use.
#[cycle(tree_uses)]
pub fn exprs_uses(uses: &mut NameUses, exprs: &ExprList) -> Result<(), NoMemory>
    ensures { OnOk result (walk_of uses.new ≡ walked (after_exprs (exprs_of exprs.now)) (walk_of uses.old)) }
{
    for expr in exprs.items() {
        expr_uses(uses, expr)?;
    }
    Ok(())
}

/// One left side.
#[cycle(tree_uses)]
fn whole_uses(uses: &mut NameUses, e: &Expr) -> Result<(), NoMemory>
    ensures { OnOk result (walk_of uses.new ≡ walked (after_whole (expr_of e.now)) (walk_of uses.old)) }
{
    if matches!(e, Expr::Ident { .. }) {
        return Ok(());
    }
    expr_uses(uses, e)
}

/// Left sides, where a name that is a whole one is no use.
#[cycle(tree_uses)]
pub(crate) fn lefts_uses(uses: &mut NameUses, exprs: &ExprList) -> Result<(), NoMemory>
    ensures { OnOk result (walk_of uses.new ≡ walked (after_lefts (exprs_of exprs.now)) (walk_of uses.old)) }
{
    for expr in exprs.items() {
        whole_uses(uses, expr)?;
    }
    Ok(())
}

#[cycle(tree_uses)]
fn elems_uses(uses: &mut NameUses, elems: &ElemList) -> Result<(), NoMemory>
    ensures { OnOk result (walk_of uses.new ≡ walked (after_elems (elems_of elems.now)) (walk_of uses.old)) }
{
    for elem in elems.items() {
        key_uses(uses, &elem.key)?;
        value_uses(uses, false, &elem.value)?;
    }
    Ok(())
}

/// A key; one of a struct is a field's name.
#[cycle(tree_uses)]
fn key_uses(uses: &mut NameUses, key: &Option<Value>) -> Result<(), NoMemory>
    ensures { OnOk result (walk_of uses.new ≡ walked (after_key (held_value_option_of key.now)) (walk_of uses.old)) }
{
    match key {
        None => Ok(()),
        Some(key) => {
            if uses.has_fields() {
                return Ok(());
            }
            value_uses(uses, true, key)
        }
    }
}

#[cycle(tree_uses)]
fn value_uses(uses: &mut NameUses, is_key: bool, value: &Value) -> Result<(), NoMemory>
    ensures { OnOk result (walk_of uses.new ≡ walked (after_value is_key (value_of value.now)) (walk_of uses.old)) }
{
    match value {
        Value::Plain(e) => expr_uses(uses, e),
        Value::Braced { elems, .. } => {
            uses.open_inside(is_key)?;
            elems_uses(uses, elems)?;
            uses.close_literal();
            Ok(())
        }
    }
}
