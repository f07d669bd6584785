//! Expressions. Each node has the span of its source, parentheses around it left out.

ghost use Rattle.std.specs.Prelude.{◌≡◌, map};
ghost use Rattle.go_tree.specs.declared.exprs.ExprList.{out-ExprList};
ghost use Rattle.go_tree.specs.declared.exprs.ElemList.{out-ElemList};
ghost use Rattle.go_tree.specs.View.{elem_of, elems_of, expr_of, exprs_of};
ghost use Rattle.go_tree.specs.Lists.{elems_from, exprs_from};

use crate::operators::{BinOp, UnOp};
use crate::spans::Span;
use crate::stmts::Block;
use crate::texts::{Name, NameAt, Text};
use crate::types::{Sig, TypeExpr};

/// How a call hands on the arguments of a variadic function's last parameter (Go specification, Passing arguments to
/// ... parameters). What is read is `Whole` with `...` after the last argument, and `Plain` without. `Packed` and
/// `Empty`
/// are calls whose last argument was made of the arguments that stand in the text, or of none.
#[derive(Clone, Copy, Debug, PartialEq, Eq)]
pub enum Rest {
    Plain,
    Whole,
    Packed,
    Empty,
}

/// An expression (Go specification, Expressions). Parentheses make no node.
#[cycle(tree)]
pub enum Expr {
    Ident {
        span: Span,
        name: Name,
    },
    IntLit {
        span: Span,
        spelling: Text,
    },
    RuneLit {
        span: Span,
        spelling: Text,
    },
    StrLit {
        span: Span,
        spelling: Text,
    },
    Composite {
        span: Span,
        of: TypeExpr,
        elems: ElemList,
    },
    Selector {
        span: Span,
        base: Box<Expr>,
        name: NameAt,
    },
    Index {
        span: Span,
        base: Box<Expr>,
        at: Box<Expr>,
    },
    Slice {
        span: Span,
        base: Box<Expr>,
        from: Option<Box<Expr>>,
        to: Option<Box<Expr>>,
    },
    Call {
        span: Span,
        callee: Box<Expr>,
        args: ExprList,
        rest: Rest,
    },
    FuncLit {
        span: Span,
        sig: Sig,
        body: Block,
    },
    TypeOperand {
        span: Span,
        of: TypeExpr,
    },
    Unary {
        span: Span,
        op: UnOp,
        e: Box<Expr>,
    },
    Binary {
        span: Span,
        op: BinOp,
        left: Box<Expr>,
        right: Box<Expr>,
    },
    Star {
        span: Span,
        e: Box<Expr>,
    },
}

impl Drop for Expr {
    #[cycle(tree_drop)]
    fn drop(self) {
        match self {
            Expr::Ident { span: _, name: _ } => (),
            Expr::IntLit {
                span: _,
                spelling: _,
            } => (),
            Expr::RuneLit {
                span: _,
                spelling: _,
            } => (),
            Expr::StrLit {
                span: _,
                spelling: _,
            } => (),
            Expr::Composite {
                span: _,
                of: _,
                elems: _,
            } => (),
            Expr::Selector {
                span: _,
                base: _,
                name: _,
            } => (),
            Expr::Index {
                span: _,
                base: _,
                at: _,
            } => (),
            Expr::Slice {
                span: _,
                base: _,
                from: _,
                to: _,
            } => (),
            Expr::Call {
                span: _,
                callee: _,
                args: _,
                rest: _,
            } => (),
            Expr::FuncLit {
                span: _,
                sig: _,
                body: _,
            } => (),
            Expr::TypeOperand { span: _, of: _ } => (),
            Expr::Unary {
                span: _,
                op: _,
                e: _,
            } => (),
            Expr::Binary {
                span: _,
                op: _,
                left: _,
                right: _,
            } => (),
            Expr::Star { span: _, e: _ } => (),
        }
    }
}

/// Expressions in their order.
#[cycle(tree)]
pub struct ExprList {
    items: Vec<Expr>,
}

impl Drop for ExprList {
    #[cycle(tree_drop)]
    fn drop(self) {
        let ExprList { items: _ } = self;
    }
}

#[tactic(auto, using(crate::proofs::ListLemmas::list_lemmas))]
impl ExprList {
    /// The list of these entries.
    pub fn of(v: Vec<Expr>) -> Self
        ensures held { (out-ExprList result).items ≡ v }
        ensures made { exprs_of result ≡ exprs_from (map expr_of v.items) }
    {
        ExprList { items: v }
    }

    /// Its entries.
    pub fn items(&self) -> &[Expr]
        ensures held { result.now ≡ (out-ExprList self.now).items.items }
        ensures seen { exprs_of self.now ≡ exprs_from (map expr_of result.now) }
    {
        &self.items
    }
}

/// An element of a composite literal, with its key where it has one (Go specification, Composite literals).
#[derive(Drop)]
#[cycle(tree)]
pub struct Elem {
    pub span: Span,
    pub key: Option<Value>,
    pub value: Value,
}

/// A key or a value of a composite literal: an expression, or elements in braces whose type is left out.
#[cycle(tree)]
pub enum Value {
    Plain(Expr),
    Braced { span: Span, elems: ElemList },
}

impl Drop for Value {
    #[cycle(tree_drop)]
    fn drop(self) {
        match self {
            Value::Plain(_) => (),
            Value::Braced { span: _, elems: _ } => (),
        }
    }
}

/// The elements of a composite literal.
#[cycle(tree)]
pub struct ElemList {
    items: Vec<Elem>,
}

impl Drop for ElemList {
    #[cycle(tree_drop)]
    fn drop(self) {
        let ElemList { items: _ } = self;
    }
}

#[tactic(auto, using(crate::proofs::ListLemmas::list_lemmas))]
impl ElemList {
    /// The list of these entries.
    pub fn of(v: Vec<Elem>) -> Self
        ensures held { (out-ElemList result).items ≡ v }
        ensures made { elems_of result ≡ elems_from (map elem_of v.items) }
    {
        ElemList { items: v }
    }

    /// Its entries.
    pub fn items(&self) -> &[Elem]
        ensures held { result.now ≡ (out-ElemList self.now).items.items }
        ensures seen { elems_of self.now ≡ elems_from (map elem_of result.now) }
    {
        &self.items
    }
}
