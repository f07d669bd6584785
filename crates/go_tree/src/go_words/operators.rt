//! Operators as they are spelled, and how tightly they bind (Go specification, Operators).

ghost use Rattle.std.specs.Prelude.{◌≡◌, ◌≤◌};
ghost use Rattle.go_tree.specs.GoWords.Operators.{binary_spelling, unary_spelling};
ghost use Rattle.go_tree.specs.GoWords.Terminals.{level_of};

use crate::{BinOp, UnOp};

/// The precedence of a binary operator, 1 to 5 (Go specification, Operator precedence).
pub fn level_of(op: BinOp) -> u8
    ensures exact { result ≡ level_of op }
    ensures most { result ≤ 5 }
{
    match op {
        BinOp::Mul
        | BinOp::Div
        | BinOp::Rem
        | BinOp::Shl
        | BinOp::Shr
        | BinOp::And
        | BinOp::AndNot => 5,
        BinOp::Add | BinOp::Sub | BinOp::Or | BinOp::Xor => 4,
        BinOp::Eq | BinOp::Ne | BinOp::Lt | BinOp::Le | BinOp::Gt | BinOp::Ge => 3,
        BinOp::LogAnd => 2,
        BinOp::LogOr => 1,
    }
}

/// The spelling of a binary operator.
pub fn binary_spelling(op: BinOp) -> &'static [u8]
    ensures { result.now ≡ binary_spelling op }
{
    match op {
        BinOp::Mul => b"*",
        BinOp::Div => b"/",
        BinOp::Rem => b"%",
        BinOp::Shl => b"<<",
        BinOp::Shr => b">>",
        BinOp::And => b"&",
        BinOp::AndNot => b"&^",
        BinOp::Add => b"+",
        BinOp::Sub => b"-",
        BinOp::Or => b"|",
        BinOp::Xor => b"^",
        BinOp::Eq => b"==",
        BinOp::Ne => b"!=",
        BinOp::Lt => b"<",
        BinOp::Le => b"<=",
        BinOp::Gt => b">",
        BinOp::Ge => b">=",
        BinOp::LogAnd => b"&&",
        BinOp::LogOr => b"||",
    }
}

/// The spelling of a unary operator.
pub fn unary_spelling(op: UnOp) -> &'static [u8]
    ensures { result.now ≡ unary_spelling op }
{
    match op {
        UnOp::Plus => b"+",
        UnOp::Minus => b"-",
        UnOp::Not => b"!",
        UnOp::Flip => b"^",
        UnOp::Address => b"&",
    }
}
