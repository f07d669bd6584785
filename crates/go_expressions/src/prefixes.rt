//! What stands before an operand (Go specification, Operators).

ghost use Rattle.std.specs.Prelude.{◌≡◌};
ghost use Rattle.go_tree.specs.View.{expr_of};
ghost use Rattle.go_expressions.specs.ExprParts.{prefix_of, prefixed};

use go_tree::go_words::Terminal;
use go_tree::{BinOp, Expr, Span, UnOp, star_expr, unary_expr};

/// What stands before an operand (Go specification, Operators).
#[derive(Clone, Copy, Debug)]
pub(crate) enum Prefix {
    Star,
    Sign(UnOp),
}

pub(crate) fn prefix_of(terminal: Terminal) -> Option<Prefix>
    ensures { prefix_of terminal ≡ result }
{
    match terminal {
        Terminal::Not => Some(Prefix::Sign(UnOp::Not)),
        Terminal::Binary(BinOp::Mul) => Some(Prefix::Star),
        Terminal::Binary(BinOp::Add) => Some(Prefix::Sign(UnOp::Plus)),
        Terminal::Binary(BinOp::Sub) => Some(Prefix::Sign(UnOp::Minus)),
        Terminal::Binary(BinOp::Xor) => Some(Prefix::Sign(UnOp::Flip)),
        Terminal::Binary(BinOp::And) => Some(Prefix::Sign(UnOp::Address)),
        _ => None,
    }
}

/// The operand with this before it.
pub(crate) fn prefixed(span: Span, prefix: Prefix, e: Box<Expr>) -> Expr
    ensures { expr_of result ≡ prefixed prefix span (expr_of e.value) }
{
    match prefix {
        Prefix::Star => star_expr(span, e),
        Prefix::Sign(op) => unary_expr(span, op, e),
    }
}
