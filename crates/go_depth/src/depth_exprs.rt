//! How deep the nodes of expressions are nested.

ghost use Rattle.std.specs.Prelude.{◌≡◌};
ghost use Rattle.go_tree.specs.View.{expr_of, exprs_of, boxed_expr_option_of, plain_expr_option_of, value_of};
ghost use Rattle.go_tree.specs.View.{held_value_option_of, elems_of};
ghost use Rattle.go_depth.specs.Depth.{capped, depth_expr, depth_exprs, depth_expr_option, depth_value};
ghost use Rattle.go_depth.specs.Depth.{depth_value_option, depth_elems};
ghost use Rattle.go_depth.specs.Deep.{elem_deep};

use crate::depth_stmts::block_depth;
use crate::depth_types::{above, deeper, sig_depth, type_depth};
use go_tree::{Elem, ElemList, Expr, ExprList, Value};

/// The greatest number of nested nodes of an expression, or `u32::MAX` where that is greater.
#[cycle(tree_depth)]
pub fn depth(e: &Expr) -> u32
    ensures { result ≡ capped (depth_expr (expr_of e.now)) }
{
    match e {
        Expr::Ident { .. } | Expr::IntLit { .. } | Expr::RuneLit { .. } | Expr::StrLit { .. } => 1,
        Expr::Composite { of, elems, .. } => above(deeper(type_depth(of), elems_depth(elems))),
        Expr::Selector { base, .. } => above(deeper(depth(base), 1)),
        Expr::Index { base, at, .. } => above(deeper(depth(base), depth(at))),
        Expr::Slice { base, from, to, .. } => above(deeper(
            depth(base),
            deeper(boxed_option_depth(from), boxed_option_depth(to)),
        )),
        Expr::Call { callee, args, .. } => above(deeper(depth(callee), exprs_depth(args))),
        Expr::FuncLit { sig, body, .. } => above(deeper(sig_depth(sig), block_depth(body))),
        Expr::TypeOperand { of, .. } => above(type_depth(of)),
        Expr::Unary { e, .. } => above(depth(e)),
        Expr::Binary { left, right, .. } => above(deeper(depth(left), depth(right))),
        Expr::Star { e, .. } => above(depth(e)),
    }
}

#[cycle(tree_depth)]
fn boxed_option_depth(e: &Option<Box<Expr>>) -> u32
    ensures { result ≡ capped (depth_expr_option (boxed_expr_option_of e.now)) }
{
    match e {
        None => 0,
        Some(e) => depth(e),
    }
}

#[cycle(tree_depth)]
pub(crate) fn option_depth(e: &Option<Expr>) -> u32
    ensures { result ≡ capped (depth_expr_option (plain_expr_option_of e.now)) }
{
    match e {
        None => 0,
        Some(e) => depth(e),
    }
}

#[cycle(tree_depth)]
pub(crate) fn exprs_depth(exprs: &ExprList) -> u32
    ensures { result ≡ capped (depth_exprs (exprs_of exprs.now)) }
{
    let mut deepest = 0;
    for expr in exprs.items() {
        deepest = deeper(deepest, depth(expr));
    }
    deepest
}

#[cycle(tree_depth)]
fn elems_depth(elems: &ElemList) -> u32
    ensures { result ≡ capped (depth_elems (elems_of elems.now)) }
{
    let mut deepest = 0;
    for elem in elems.items() {
        deepest = deeper(deepest, elem_depth(elem));
    }
    deepest
}

#[cycle(tree_depth)]
fn elem_depth(elem: &Elem) -> u32
    ensures { result ≡ capped (elem_deep elem.now) }
{
    above(deeper(value_option_depth(&elem.key), value_depth(&elem.value)))
}

#[cycle(tree_depth)]
fn value_option_depth(value: &Option<Value>) -> u32
    ensures { result ≡ capped (depth_value_option (held_value_option_of value.now)) }
{
    match value {
        None => 0,
        Some(value) => value_depth(value),
    }
}

#[cycle(tree_depth)]
fn value_depth(value: &Value) -> u32
    ensures { result ≡ capped (depth_value (value_of value.now)) }
{
    match value {
        Value::Plain(e) => depth(e),
        Value::Braced { elems, .. } => above(elems_depth(elems)),
    }
}
