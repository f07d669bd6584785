//! Expressions and elements made of their parts, each in one place. Operands stand in their boxes before their node is
//! made: a step that drops an expression which stands in no box or list is dear to check.

ghost use Rattle.std.specs.Prelude.{◌≡◌};
ghost use Rattle.go_tree.specs.Tree.{ident, int_lit, rune_lit, str_lit, composite, selector, index, slice, call};
ghost use Rattle.go_tree.specs.Tree.{func_lit, type_operand, unary, binary, star};
ghost use Rattle.go_tree.specs.View.{name_at_of, type_of, sig_of, expr_of, exprs_of, elem_of, elems_of};
ghost use Rattle.go_tree.specs.View.{boxed_expr_option_of, held_value_option_of, stmts_of, value_of};

use crate::exprs::{Elem, ElemList, Expr, ExprList, Rest, Value};
use crate::operators::{BinOp, UnOp};
use crate::spans::Span;
use crate::stmts::Block;
use crate::texts::{Name, NameAt, Text};
use crate::types::{Sig, TypeExpr};

/// A name (Go specification, Operands).
pub fn ident_expr(span: Span, name: Name) -> Expr
    ensures { expr_of result ≡ ident span name }
{
    Expr::Ident { span, name }
}

/// An integer literal (Go specification, Integer literals).
pub fn int_lit_expr(span: Span, spelling: Text) -> Expr
    ensures { expr_of result ≡ int_lit span spelling }
{
    Expr::IntLit { span, spelling }
}

/// A rune literal (Go specification, Rune literals).
pub fn rune_lit_expr(span: Span, spelling: Text) -> Expr
    ensures { expr_of result ≡ rune_lit span spelling }
{
    Expr::RuneLit { span, spelling }
}

/// A string literal (Go specification, String literals).
pub fn str_lit_expr(span: Span, spelling: Text) -> Expr
    ensures { expr_of result ≡ str_lit span spelling }
{
    Expr::StrLit { span, spelling }
}

/// A composite literal (Go specification, Composite literals).
pub fn composite_expr(span: Span, of: TypeExpr, elems: ElemList) -> Expr
    ensures { expr_of result ≡ composite span (type_of of) (elems_of elems) }
{
    Expr::Composite { span, of, elems }
}

/// `base.name` (Go specification, Selectors).
pub fn selector_expr(span: Span, base: Box<Expr>, name: NameAt) -> Expr
    ensures { expr_of result ≡ selector span (expr_of base.value) (name_at_of name) }
{
    Expr::Selector { span, base, name }
}

/// `base[at]` (Go specification, Index expressions).
pub fn index_expr(span: Span, base: Box<Expr>, at: Box<Expr>) -> Expr
    ensures { expr_of result ≡ index span (expr_of base.value) (expr_of at.value) }
{
    Expr::Index { span, base, at }
}

/// `base[from:to]` (Go specification, Simple slice expressions).
pub fn slice_expr(
    span: Span,
    base: Box<Expr>,
    from: Option<Box<Expr>>,
    to: Option<Box<Expr>>,
) -> Expr
    ensures { expr_of result ≡ slice span (expr_of base.value) (boxed_expr_option_of from) (boxed_expr_option_of to) }
{
    Expr::Slice {
        span,
        base,
        from,
        to,
    }
}

/// `callee(args)`, or `callee(args...)` where `rest` is `Whole` (Go specification, Calls).
pub fn call_expr(span: Span, callee: Box<Expr>, args: ExprList, rest: Rest) -> Expr
    ensures { expr_of result ≡ call span (expr_of callee.value) (exprs_of args) rest }
{
    Expr::Call {
        span,
        callee,
        args,
        rest,
    }
}

/// A literal of a function (Go specification, Function literals).
pub fn func_lit_expr(span: Span, sig: Sig, body: Block) -> Expr
    ensures { expr_of result ≡ func_lit span (sig_of sig) body.span (stmts_of body.stmts) }
{
    Expr::FuncLit { span, sig, body }
}

/// A type where an expression stands (Go specification, Conversions).
pub fn type_operand_expr(span: Span, of: TypeExpr) -> Expr
    ensures { expr_of result ≡ type_operand span (type_of of) }
{
    Expr::TypeOperand { span, of }
}

/// An operator before its operand, `*` aside (Go specification, Operators).
pub fn unary_expr(span: Span, op: UnOp, e: Box<Expr>) -> Expr
    ensures { expr_of result ≡ unary span op (expr_of e.value) }
{
    Expr::Unary { span, op, e }
}

/// An operator between its operands (Go specification, Operators).
pub fn binary_expr(span: Span, op: BinOp, left: Box<Expr>, right: Box<Expr>) -> Expr
    ensures { expr_of result ≡ binary span op (expr_of left.value) (expr_of right.value) }
{
    Expr::Binary {
        span,
        op,
        left,
        right,
    }
}

/// `*e` (Go specification, Address operators).
pub fn star_expr(span: Span, e: Box<Expr>) -> Expr
    ensures { expr_of result ≡ star span (expr_of e.value) }
{
    Expr::Star { span, e }
}

impl Elem {
    /// The element of these parts.
    pub fn new(span: Span, key: Option<Value>, value: Value) -> Self
        ensures { elem_of result ≡ (span, held_value_option_of key, value_of value) }
    {
        Elem { span, key, value }
    }
}
