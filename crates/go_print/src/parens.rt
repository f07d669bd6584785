//! Where parentheses stand around an expression.

ghost use Rattle.std.specs.Prelude.{◌≡◌, ◌||◌, false};
ghost use Rattle.go_layout.specs.Parens.{is_bracketed_type, is_integer, is_named_literal, is_one_operator};
ghost use Rattle.go_layout.specs.Parens.{needs_parens, precedence, runs_into};
ghost use Rattle.go_tree.specs.View.{expr_of};

use go_tree::go_words::level_of;
use go_tree::{Expr, TypeExpr, UnOp};

/// The precedence of an expression with an operator before its operand.
pub(crate) const UNARY: u8 = 6;
/// The precedence of what may be called, selected from, indexed or sliced.
pub(crate) const OPERAND: u8 = 7;
/// The least precedence: a place that takes every expression.
pub(crate) const LOWEST: u8 = 1;

/// Whether the expression stands in parentheses in a place of this level, in a header outside
/// brackets or not, where `(`, `,` or `)` directly follows or not.
pub(crate) fn needs_parens(level: u8, header: bool, closed: bool, e: &Expr) -> bool
    ensures { result ≡ needs_parens level header closed (expr_of e.now) }
{
    precedence(e) < level || header && is_named_literal(e) || !closed && is_bracketed_type(e)
}

/// The same of what is selected from: an integer before a dot would be another number.
pub(crate) fn base_parens(header: bool, e: &Expr) -> bool
    ensures { result ≡ (needs_parens 7 header false (expr_of e.now) || is_integer (expr_of e.now)) }
{
    needs_parens(OPERAND, header, false, e) || is_integer(e)
}

/// The same of what an operator stands before: two operators aren't to be read as one.
pub(crate) fn operand_parens(op: UnOp, header: bool, closed: bool, e: &Expr) -> bool
    ensures { result ≡ (needs_parens 6 header closed (expr_of e.now) || runs_into op (expr_of e.now)) }
{
    needs_parens(UNARY, header, closed, e) || runs_into(op, e)
}

fn precedence(e: &Expr) -> u8
    ensures { result ≡ precedence (expr_of e.now) }
{
    match e {
        Expr::Binary { op, .. } => level_of(*op),
        Expr::Unary { .. } | Expr::Star { .. } => UNARY,
        Expr::TypeOperand { of, .. } => match of {
            TypeExpr::Pointer { .. } => UNARY,
            _ => OPERAND,
        },
        _ => OPERAND,
    }
}

fn is_named_literal(e: &Expr) -> bool
    ensures { result ≡ is_named_literal (expr_of e.now) }
{
    match e {
        Expr::Composite { of, .. } => matches!(of, TypeExpr::Named { .. }),
        _ => false,
    }
}

fn is_bracketed_type(e: &Expr) -> bool
    ensures { result ≡ is_bracketed_type (expr_of e.now) }
{
    match e {
        Expr::TypeOperand { of, .. } => match of {
            TypeExpr::Named { .. } | TypeExpr::Pointer { .. } => false,
            TypeExpr::Slice { .. } | TypeExpr::Map { .. } | TypeExpr::Struct { .. } => true,
        },
        _ => false,
    }
}

fn is_integer(e: &Expr) -> bool
    ensures { result ≡ is_integer (expr_of e.now) }
{
    matches!(e, Expr::IntLit { .. })
}

fn runs_into(op: UnOp, e: &Expr) -> bool
    ensures { result ≡ runs_into op (expr_of e.now) }
{
    match e {
        Expr::Unary { op: inner, .. } => is_one_operator(op, *inner),
        _ => false,
    }
}

fn is_one_operator(op: UnOp, inner: UnOp) -> bool
    ensures { result ≡ is_one_operator op inner }
{
    match (op, inner) {
        (UnOp::Plus, UnOp::Plus)
        | (UnOp::Minus, UnOp::Minus)
        | (UnOp::Address, UnOp::Address | UnOp::Flip) => true,
        _ => false,
    }
}
