//! Parts of statements.

ghost use Rattle.std.specs.Prelude.{◌≡◌, map};
ghost use Rattle.std.specs.Option.{option_map};
ghost use Rattle.go_tree.specs.Lists.{exprs_from};
ghost use Rattle.go_tree.specs.Tree.{assigns};
ghost use Rattle.go_tree.specs.View.{boxed_expr_option_of, expr_of, plain_expr_option_of, range_left_of, stmt_of};
ghost use Rattle.go_tree.specs.Parts.{evaluated};
ghost use Rattle.go_statements.specs.StmtParts.{is_bare_call};

use go_tree::{Expr, ExprList, RangeLeft, Stmt};

/// The expression of a statement that is one alone.
pub(crate) fn evaluated(stmt: Stmt) -> Option<Expr>
    ensures { evaluated (stmt_of stmt) ≡ option_map expr_of result }
{
    stmt.evaluated()
}

/// Whether the expression is a call without parentheses around it.
pub(crate) fn is_bare_call(e: &Expr, bare: bool) -> bool
    ensures { is_bare_call (expr_of e.now) bare ≡ result }
{
    if !bare {
        return false;
    }
    match e {
        Expr::Call { .. } => true,
        _ => false,
    }
}

/// What a `range` clause assigns to.
pub(crate) fn assigned(exprs: Vec<Expr>) -> RangeLeft
    ensures { range_left_of result ≡ assigns (exprs_from (map expr_of exprs.items)) }
{
    RangeLeft::Assigns(ExprList::of(exprs))
}

/// The expression that a box holds, where there is one.
pub(crate) fn unboxed(e: Option<Box<Expr>>) -> Option<Expr>
    ensures { plain_expr_option_of result ≡ boxed_expr_option_of e }
{
    match e {
        None => None,
        Some(e) => Some(Box::into_inner(e)),
    }
}
