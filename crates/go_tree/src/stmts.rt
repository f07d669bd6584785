//! Statements, and the declarations that may be statements. Each node has the span of its source.

ghost use Rattle.std.specs.Prelude.{◌≡◌, map};
ghost use Rattle.go_tree.specs.declared.stmts.StmtList.{out-StmtList};
ghost use Rattle.go_tree.specs.declared.stmts.ConstSpecList.{out-ConstSpecList};
ghost use Rattle.go_tree.specs.declared.stmts.VarSpecList.{out-VarSpecList};
ghost use Rattle.go_tree.specs.declared.stmts.ArmList.{out-ArmList};
ghost use Rattle.go_tree.specs.declared.stmts.CaseList.{out-CaseList};
ghost use Rattle.go_tree.specs.View.{arm_of, arms_of, case_of, cases_of, const_spec_of, const_specs_of, stmt_of};
ghost use Rattle.go_tree.specs.View.{stmts_of, var_spec_of, var_specs_of};
ghost use Rattle.std.specs.Option.{option_map};
ghost use Rattle.go_tree.specs.Parts.{evaluated};
ghost use Rattle.go_tree.specs.View.{expr_of};
ghost use Rattle.go_tree.specs.Lists.{arms_from, cases_from, specs_from, stmts_from};

use crate::exprs::{Expr, ExprList};
use crate::operators::BinOp;
use crate::spans::Span;
use crate::texts::{NameAt, NameAtList};
use crate::types::TypeExpr;

/// A statement (Go specification, Statements).
#[cycle(tree)]
pub enum Stmt {
    Const(ConstDecl),
    Var(VarDecl),
    Empty {
        span: Span,
    },
    Eval {
        span: Span,
        e: Expr,
    },
    Step {
        span: Span,
        e: Expr,
        up: bool,
    },
    Assign {
        span: Span,
        left: ExprList,
        op: Option<BinOp>,
        right: ExprList,
    },
    Define {
        span: Span,
        names: NameAtList,
        right: ExprList,
    },
    Return {
        span: Span,
        values: ExprList,
    },
    Break {
        span: Span,
        label: Option<NameAt>,
    },
    Continue {
        span: Span,
        label: Option<NameAt>,
    },
    Inner(Block),
    If {
        span: Span,
        arms: ArmList,
        last: Option<Block>,
    },
    For {
        span: Span,
        first: Option<Box<Stmt>>,
        test: Option<Expr>,
        post: Option<Box<Stmt>>,
        body: Block,
    },
    Range {
        span: Span,
        left: RangeLeft,
        over: Expr,
        body: Block,
    },
    Switch {
        span: Span,
        first: Option<Box<Stmt>>,
        tag: Option<Expr>,
        cases: CaseList,
    },
    Defer {
        span: Span,
        call: Expr,
    },
    Label {
        span: Span,
        name: NameAt,
        stmt: Box<Stmt>,
    },
}

impl Drop for Stmt {
    #[cycle(tree_drop)]
    fn drop(self) {
        match self {
            Stmt::Const(_) => (),
            Stmt::Var(_) => (),
            Stmt::Empty { span: _ } => (),
            Stmt::Eval { span: _, e: _ } => (),
            Stmt::Step {
                span: _,
                e: _,
                up: _,
            } => (),
            Stmt::Assign {
                span: _,
                left: _,
                op: _,
                right: _,
            } => (),
            Stmt::Define {
                span: _,
                names: _,
                right: _,
            } => (),
            Stmt::Return { span: _, values: _ } => (),
            Stmt::Break { span: _, label: _ } => (),
            Stmt::Continue { span: _, label: _ } => (),
            Stmt::Inner(_) => (),
            Stmt::If {
                span: _,
                arms: _,
                last: _,
            } => (),
            Stmt::For {
                span: _,
                first: _,
                test: _,
                post: _,
                body: _,
            } => (),
            Stmt::Range {
                span: _,
                left: _,
                over: _,
                body: _,
            } => (),
            Stmt::Switch {
                span: _,
                first: _,
                tag: _,
                cases: _,
            } => (),
            Stmt::Defer { span: _, call: _ } => (),
            Stmt::Label {
                span: _,
                name: _,
                stmt: _,
            } => (),
        }
    }
}

impl Stmt {
    /// The expression of a statement that is one alone.
    pub fn evaluated(self) -> Option<Expr>
        ensures { evaluated (stmt_of self) ≡ option_map expr_of result }
    {
        match self {
            Stmt::Eval { span: _, e } => Some(e),
            other => {
                drop(other);
                None
            }
        }
    }
}

/// Statements in their order.
#[cycle(tree)]
pub struct StmtList {
    items: Vec<Stmt>,
}

impl Drop for StmtList {
    #[cycle(tree_drop)]
    fn drop(self) {
        let StmtList { items: _ } = self;
    }
}

#[tactic(auto, using(crate::proofs::ListLemmas::list_lemmas))]
impl StmtList {
    /// The list of these entries.
    pub fn of(v: Vec<Stmt>) -> Self
        ensures held { (out-StmtList result).items ≡ v }
        ensures made { stmts_of result ≡ stmts_from (map stmt_of v.items) }
    {
        StmtList { items: v }
    }

    /// Its entries.
    pub fn items(&self) -> &[Stmt]
        ensures held { result.now ≡ (out-StmtList self.now).items.items }
        ensures seen { stmts_of self.now ≡ stmts_from (map stmt_of result.now) }
    {
        &self.items
    }
}

/// Statements in braces (Go specification, Blocks).
#[derive(Drop)]
#[cycle(tree)]
pub struct Block {
    pub span: Span,
    pub stmts: StmtList,
}

/// `const` with one spec, or with a group in parentheses.
#[derive(Drop)]
#[cycle(tree)]
pub struct ConstDecl {
    pub span: Span,
    pub grouped: bool,
    pub specs: ConstSpecList,
}

/// Names with a type and values; a member of a group may have neither (Go specification, Constant declarations).
#[derive(Drop)]
#[cycle(tree)]
pub struct ConstSpec {
    pub span: Span,
    pub names: NameAtList,
    pub of: Option<TypeExpr>,
    pub values: ExprList,
}

/// The specs of a constant declaration.
#[cycle(tree)]
pub struct ConstSpecList {
    items: Vec<ConstSpec>,
}

impl Drop for ConstSpecList {
    #[cycle(tree_drop)]
    fn drop(self) {
        let ConstSpecList { items: _ } = self;
    }
}

#[tactic(auto, using(crate::proofs::ListLemmas::list_lemmas))]
impl ConstSpecList {
    /// The list of these entries.
    pub fn of(v: Vec<ConstSpec>) -> Self
        ensures held { (out-ConstSpecList result).items ≡ v }
        ensures made { const_specs_of result ≡ specs_from (map const_spec_of v.items) }
    {
        ConstSpecList { items: v }
    }

    /// Its entries.
    pub fn items(&self) -> &[ConstSpec]
        ensures held { result.now ≡ (out-ConstSpecList self.now).items.items }
        ensures seen { const_specs_of self.now ≡ specs_from (map const_spec_of result.now) }
    {
        &self.items
    }
}

/// `var` with one spec, or with a group in parentheses.
#[derive(Drop)]
#[cycle(tree)]
pub struct VarDecl {
    pub span: Span,
    pub grouped: bool,
    pub specs: VarSpecList,
}

/// Names with a type, values, or both (Go specification, Variable declarations).
#[derive(Drop)]
#[cycle(tree)]
pub struct VarSpec {
    pub span: Span,
    pub names: NameAtList,
    pub of: Option<TypeExpr>,
    pub values: ExprList,
}

/// The specs of a variable declaration.
#[cycle(tree)]
pub struct VarSpecList {
    items: Vec<VarSpec>,
}

impl Drop for VarSpecList {
    #[cycle(tree_drop)]
    fn drop(self) {
        let VarSpecList { items: _ } = self;
    }
}

#[tactic(auto, using(crate::proofs::ListLemmas::list_lemmas))]
impl VarSpecList {
    /// The list of these entries.
    pub fn of(v: Vec<VarSpec>) -> Self
        ensures held { (out-VarSpecList result).items ≡ v }
        ensures made { var_specs_of result ≡ specs_from (map var_spec_of v.items) }
    {
        VarSpecList { items: v }
    }

    /// Its entries.
    pub fn items(&self) -> &[VarSpec]
        ensures held { result.now ≡ (out-VarSpecList self.now).items.items }
        ensures seen { var_specs_of self.now ≡ specs_from (map var_spec_of result.now) }
    {
        &self.items
    }
}

/// What stands before `range`: nothing, operands that are assigned, or names that are declared (Go specification, For
/// statements with range clause).
#[cycle(tree)]
pub enum RangeLeft {
    Nothing,
    Assigns(ExprList),
    Defines(NameAtList),
}

impl Drop for RangeLeft {
    #[cycle(tree_drop)]
    fn drop(self) {
        match self {
            RangeLeft::Nothing => (),
            RangeLeft::Assigns(_) => (),
            RangeLeft::Defines(_) => (),
        }
    }
}

/// A test of an `if` with its block; `first` is the statement before the test (Go specification, If statements).
#[derive(Drop)]
#[cycle(tree)]
pub struct Arm {
    pub span: Span,
    pub first: Option<Box<Stmt>>,
    pub test: Expr,
    pub body: Block,
}

/// The arms of an `if`, those after `else` included.
#[cycle(tree)]
pub struct ArmList {
    items: Vec<Arm>,
}

impl Drop for ArmList {
    #[cycle(tree_drop)]
    fn drop(self) {
        let ArmList { items: _ } = self;
    }
}

#[tactic(auto, using(crate::proofs::ListLemmas::list_lemmas))]
impl ArmList {
    /// The list of these entries.
    pub fn of(v: Vec<Arm>) -> Self
        ensures held { (out-ArmList result).items ≡ v }
        ensures made { arms_of result ≡ arms_from (map arm_of v.items) }
    {
        ArmList { items: v }
    }

    /// Its entries.
    pub fn items(&self) -> &[Arm]
        ensures held { result.now ≡ (out-ArmList self.now).items.items }
        ensures seen { arms_of self.now ≡ arms_from (map arm_of result.now) }
    {
        &self.items
    }
}

/// A clause of a `switch`; `default` is the one without values (Go specification, Expression switches).
#[derive(Drop)]
#[cycle(tree)]
pub struct Case {
    pub span: Span,
    pub values: ExprList,
    pub body: StmtList,
}

/// The clauses of a `switch`.
#[cycle(tree)]
pub struct CaseList {
    items: Vec<Case>,
}

impl Drop for CaseList {
    #[cycle(tree_drop)]
    fn drop(self) {
        let CaseList { items: _ } = self;
    }
}

#[tactic(auto, using(crate::proofs::ListLemmas::list_lemmas))]
impl CaseList {
    /// The list of these entries.
    pub fn of(v: Vec<Case>) -> Self
        ensures held { (out-CaseList result).items ≡ v }
        ensures made { cases_of result ≡ cases_from (map case_of v.items) }
    {
        CaseList { items: v }
    }

    /// Its entries.
    pub fn items(&self) -> &[Case]
        ensures held { result.now ≡ (out-CaseList self.now).items.items }
        ensures seen { cases_of self.now ≡ cases_from (map case_of result.now) }
    {
        &self.items
    }
}
