//! Statements, and the entries of their lists, made of their parts, each in one place.

ghost use Rattle.std.specs.Prelude.{◌≡◌, map};
ghost use Rattle.std.specs.Option.{option_map};
ghost use Rattle.go_tree.specs.Tree.{const_decl, var_decl, empty, eval, step, assign, define, return_, break_};
ghost use Rattle.go_tree.specs.Tree.{continue_, inner, if_, for_, range_, switch, defer, label};
ghost use Rattle.go_tree.specs.View.{arm_of, arms_of, block_of, boxed_stmt_option_of, case_of, cases_of, const_decl_of};
ghost use Rattle.go_tree.specs.View.{const_spec_of, const_specs_of, expr_of, exprs_of, held_block_option_of};
ghost use Rattle.go_tree.specs.View.{name_at_of, plain_expr_option_of, range_left_of, stmt_of, stmts_of, type_of};
ghost use Rattle.go_tree.specs.View.{var_decl_of, var_spec_of, var_specs_of};

use crate::exprs::{Expr, ExprList};
use crate::operators::BinOp;
use crate::spans::Span;
use crate::stmts::{
    Arm, ArmList, Block, Case, CaseList, ConstDecl, ConstSpec, ConstSpecList, RangeLeft, Stmt,
    StmtList, VarDecl, VarSpec, VarSpecList,
};
use crate::texts::{NameAt, NameAtList};
use crate::types::TypeExpr;

/// A constant declaration as a statement (Go specification, Constant declarations).
pub fn const_stmt(decl: ConstDecl) -> Stmt
    ensures { stmt_of result ≡ const_decl_of decl }
{
    Stmt::Const(decl)
}

/// A variable declaration as a statement (Go specification, Variable declarations).
pub fn var_stmt(decl: VarDecl) -> Stmt
    ensures { stmt_of result ≡ var_decl_of decl }
{
    Stmt::Var(decl)
}

/// An empty statement (Go specification, Empty statements).
pub fn empty_stmt(span: Span) -> Stmt
    ensures { stmt_of result ≡ empty span }
{
    Stmt::Empty { span }
}

/// An expression as a statement (Go specification, Expression statements).
pub fn eval_stmt(span: Span, e: Expr) -> Stmt
    ensures { stmt_of result ≡ eval span (expr_of e) }
{
    Stmt::Eval { span, e }
}

/// `e++` with `up`, else `e--` (Go specification, IncDec statements).
pub fn step_stmt(span: Span, e: Expr, up: bool) -> Stmt
    ensures { stmt_of result ≡ step span (expr_of e) up }
{
    Stmt::Step { span, e, up }
}

/// `left = right`, or `left op= right` (Go specification, Assignment statements).
pub fn assign_stmt(span: Span, left: ExprList, op: Option<BinOp>, right: ExprList) -> Stmt
    ensures { stmt_of result ≡ assign span (exprs_of left) op (exprs_of right) }
{
    Stmt::Assign {
        span,
        left,
        op,
        right,
    }
}

/// `names := right` (Go specification, Short variable declarations).
pub fn define_stmt(span: Span, names: NameAtList, right: ExprList) -> Stmt
    ensures { stmt_of result ≡ define span (map name_at_of names) (exprs_of right) }
{
    Stmt::Define { span, names, right }
}

/// `return values` (Go specification, Return statements).
pub fn return_stmt(span: Span, values: ExprList) -> Stmt
    ensures { stmt_of result ≡ return_ span (exprs_of values) }
{
    Stmt::Return { span, values }
}

/// `break`, with its label where it has one (Go specification, Break statements).
pub fn break_stmt(span: Span, label: Option<NameAt>) -> Stmt
    ensures { stmt_of result ≡ break_ span (option_map name_at_of label) }
{
    Stmt::Break { span, label }
}

/// `continue`, with its label where it has one (Go specification, Continue statements).
pub fn continue_stmt(span: Span, label: Option<NameAt>) -> Stmt
    ensures { stmt_of result ≡ continue_ span (option_map name_at_of label) }
{
    Stmt::Continue { span, label }
}

/// A block as a statement (Go specification, Blocks).
pub fn inner_stmt(block: Block) -> Stmt
    ensures { stmt_of result ≡ inner block.span (stmts_of block.stmts) }
{
    Stmt::Inner(block)
}

/// The arms of an `if`, and the block after the last `else` (Go specification, If statements).
pub fn if_stmt(span: Span, arms: ArmList, last: Option<Block>) -> Stmt
    ensures { stmt_of result ≡ if_ span (arms_of arms) (held_block_option_of last) }
{
    Stmt::If { span, arms, last }
}

/// `for` without `range` (Go specification, For statements).
pub fn for_stmt(
    span: Span,
    first: Option<Box<Stmt>>,
    test: Option<Expr>,
    post: Option<Box<Stmt>>,
    body: Block,
) -> Stmt
    ensures { stmt_of result ≡ for_ span (boxed_stmt_option_of first) (plain_expr_option_of test)
        (boxed_stmt_option_of post) body.span (stmts_of body.stmts) }
{
    Stmt::For {
        span,
        first,
        test,
        post,
        body,
    }
}

/// `for` with `range` (Go specification, For statements with range clause).
pub fn range_stmt(span: Span, left: RangeLeft, over: Expr, body: Block) -> Stmt
    ensures { stmt_of result ≡ range_ span (range_left_of left) (expr_of over) body.span (stmts_of body.stmts) }
{
    Stmt::Range {
        span,
        left,
        over,
        body,
    }
}

/// `switch` (Go specification, Expression switches).
pub fn switch_stmt(span: Span, first: Option<Box<Stmt>>, tag: Option<Expr>, cases: CaseList) -> Stmt
    ensures { stmt_of result ≡ switch span (boxed_stmt_option_of first) (plain_expr_option_of tag) (cases_of cases) }
{
    Stmt::Switch {
        span,
        first,
        tag,
        cases,
    }
}

/// `defer call` (Go specification, Defer statements).
pub fn defer_stmt(span: Span, call: Expr) -> Stmt
    ensures { stmt_of result ≡ defer span (expr_of call) }
{
    Stmt::Defer { span, call }
}

/// `name: stmt` (Go specification, Labeled statements).
pub fn label_stmt(span: Span, name: NameAt, stmt: Box<Stmt>) -> Stmt
    ensures { stmt_of result ≡ label span (name_at_of name) (stmt_of stmt.value) }
{
    Stmt::Label { span, name, stmt }
}

impl ConstDecl {
    /// The declaration of these parts.
    pub fn new(span: Span, grouped: bool, specs: ConstSpecList) -> Self
        ensures { const_decl_of result ≡ const_decl span grouped (const_specs_of specs) }
    {
        ConstDecl {
            span,
            grouped,
            specs,
        }
    }
}

impl VarDecl {
    /// The declaration of these parts.
    pub fn new(span: Span, grouped: bool, specs: VarSpecList) -> Self
        ensures { var_decl_of result ≡ var_decl span grouped (var_specs_of specs) }
    {
        VarDecl {
            span,
            grouped,
            specs,
        }
    }
}

impl ConstSpec {
    /// The spec of these parts.
    pub fn new(span: Span, names: NameAtList, of: Option<TypeExpr>, values: ExprList) -> Self
        ensures { const_spec_of result ≡ (span, map name_at_of names, option_map type_of of, exprs_of values) }
    {
        ConstSpec {
            span,
            names,
            of,
            values,
        }
    }
}

impl VarSpec {
    /// The spec of these parts.
    pub fn new(span: Span, names: NameAtList, of: Option<TypeExpr>, values: ExprList) -> Self
        ensures { var_spec_of result ≡ (span, map name_at_of names, option_map type_of of, exprs_of values) }
    {
        VarSpec {
            span,
            names,
            of,
            values,
        }
    }
}

impl Arm {
    /// The arm of these parts.
    pub fn new(span: Span, first: Option<Box<Stmt>>, test: Expr, body: Block) -> Self
        ensures { arm_of result ≡ (span, boxed_stmt_option_of first, expr_of test, block_of body) }
    {
        Arm {
            span,
            first,
            test,
            body,
        }
    }
}

impl Case {
    /// The clause of these parts; `default` has no values.
    pub fn new(span: Span, values: ExprList, body: StmtList) -> Self
        ensures { case_of result ≡ (span, exprs_of values, stmts_of body) }
    {
        Case { span, values, body }
    }
}
