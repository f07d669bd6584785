//! Copies of statements. What may fail comes before an expression that stands in no box or list: a step
//! that drops one is dear to check.

ghost use Rattle.std.specs.Prelude.{◌≡◌, IfOk};
ghost use Rattle.go_tree.specs.View.{block_of, held_block_option_of, stmt_of, stmts_of, boxed_stmt_option_of};
ghost use Rattle.go_tree.specs.View.{range_left_of, arm_of, arms_of, case_of, cases_of, const_spec_of, const_specs_of};
ghost use Rattle.go_tree.specs.View.{var_spec_of, var_specs_of};

use crate::copy_exprs::{copy_expr, copy_expr_option, copy_exprs};
use crate::copy_types::{copy_name_at, copy_name_at_option, copy_names, copy_type_option};
use go_tree::{
    Arm, ArmList, Block, Case, CaseList, ConstDecl, ConstSpec, ConstSpecList, NoMemory, RangeLeft,
    Stmt, StmtList, VarDecl, VarSpec, VarSpecList, assign_stmt, break_stmt, const_stmt,
    continue_stmt, defer_stmt, define_stmt, empty_stmt, eval_stmt, for_stmt, if_stmt, inner_stmt,
    label_stmt, range_stmt, return_stmt, step_stmt, switch_stmt, var_stmt,
};
use std::alloc::Global;

/// A copy of a statement, spans included.
#[cycle(copy_tree)]
pub fn copy_stmt(alloc: Global, s: &Stmt) -> Result<Stmt, NoMemory>
    ensures { IfOk result (λ c. stmt_of c ≡ stmt_of s.now) }
{
    match s {
        Stmt::Const(decl) => {
            let specs = copy_const_specs(alloc, &decl.specs)?;
            Ok(const_stmt(ConstDecl::new(decl.span, decl.grouped, specs)))
        }
        Stmt::Var(decl) => {
            let specs = copy_var_specs(alloc, &decl.specs)?;
            Ok(var_stmt(VarDecl::new(decl.span, decl.grouped, specs)))
        }
        Stmt::Empty { span } => Ok(empty_stmt(*span)),
        Stmt::Eval { span, e } => Ok(eval_stmt(*span, copy_expr(alloc, e)?)),
        Stmt::Step { span, e, up } => Ok(step_stmt(*span, copy_expr(alloc, e)?, *up)),
        Stmt::Assign {
            span,
            left,
            op,
            right,
        } => {
            let left = copy_exprs(alloc, left)?;
            Ok(assign_stmt(*span, left, *op, copy_exprs(alloc, right)?))
        }
        Stmt::Define { span, names, right } => {
            let names = copy_names(alloc, names)?;
            Ok(define_stmt(*span, names, copy_exprs(alloc, right)?))
        }
        Stmt::Return { span, values } => Ok(return_stmt(*span, copy_exprs(alloc, values)?)),
        Stmt::Break { span, label } => { Ok(break_stmt(*span, copy_name_at_option(alloc, label)?)) }
        Stmt::Continue { span, label } => {
            Ok(continue_stmt(*span, copy_name_at_option(alloc, label)?))
        }
        Stmt::Inner(block) => Ok(inner_stmt(copy_block(alloc, block)?)),
        Stmt::If { span, arms, last } => {
            let arms = copy_arms(alloc, arms)?;
            Ok(if_stmt(*span, arms, copy_block_option(alloc, last)?))
        }
        Stmt::For {
            span,
            first,
            test,
            post,
            body,
        } => {
            let first = copy_stmt_option(alloc, first)?;
            let post = copy_stmt_option(alloc, post)?;
            let body = copy_block(alloc, body)?;
            let test = copy_expr_option(alloc, test)?;
            Ok(for_stmt(*span, first, test, post, body))
        }
        Stmt::Range {
            span,
            left,
            over,
            body,
        } => {
            let body = copy_block(alloc, body)?;
            let left = copy_range_left(alloc, left)?;
            Ok(range_stmt(*span, left, copy_expr(alloc, over)?, body))
        }
        Stmt::Switch {
            span,
            first,
            tag,
            cases,
        } => {
            let first = copy_stmt_option(alloc, first)?;
            let cases = copy_cases(alloc, cases)?;
            let tag = copy_expr_option(alloc, tag)?;
            Ok(switch_stmt(*span, first, tag, cases))
        }
        Stmt::Defer { span, call } => Ok(defer_stmt(*span, copy_expr(alloc, call)?)),
        Stmt::Label { span, name, stmt } => {
            let name = copy_name_at(alloc, name)?;
            Ok(label_stmt(*span, name, copy_boxed_stmt(alloc, stmt)?))
        }
    }
}

#[cycle(copy_tree)]
pub(crate) fn copy_block(alloc: Global, block: &Block) -> Result<Block, NoMemory>
    ensures { IfOk result (λ c. block_of c ≡ block_of block.now) }
{
    Ok(Block {
        span: block.span,
        stmts: copy_stmts(alloc, &block.stmts)?,
    })
}

#[cycle(copy_tree)]
fn copy_block_option(alloc: Global, block: &Option<Block>) -> Result<Option<Block>, NoMemory>
    ensures { IfOk result (λ c. held_block_option_of c ≡ held_block_option_of block.now) }
{
    match block {
        None => Ok(None),
        Some(block) => Ok(Some(copy_block(alloc, block)?)),
    }
}

#[cycle(copy_tree)]
fn copy_stmts(alloc: Global, stmts: &StmtList) -> Result<StmtList, NoMemory>
    ensures { IfOk result (λ c. stmts_of c ≡ stmts_of stmts.now) }
{
    let mut copies = Vec::new(alloc);
    for stmt in stmts.items() {
        copies.push(copy_stmt(alloc, stmt)?)?;
    }
    Ok(StmtList::of(copies))
}

#[cycle(copy_tree)]
fn copy_boxed_stmt(alloc: Global, stmt: &Box<Stmt>) -> Result<Box<Stmt>, NoMemory>
    ensures { IfOk result (λ c. stmt_of c.value ≡ stmt_of stmt.now.value) }
{
    Ok(Box::new(alloc, copy_stmt(alloc, stmt)?)?)
}

#[cycle(copy_tree)]
fn copy_stmt_option(alloc: Global, stmt: &Option<Box<Stmt>>) -> Result<Option<Box<Stmt>>, NoMemory>
    ensures { IfOk result (λ c. boxed_stmt_option_of c ≡ boxed_stmt_option_of stmt.now) }
{
    match stmt {
        None => Ok(None),
        Some(stmt) => Ok(Some(Box::new(alloc, copy_stmt(alloc, stmt)?)?)),
    }
}

#[cycle(copy_tree)]
fn copy_range_left(alloc: Global, left: &RangeLeft) -> Result<RangeLeft, NoMemory>
    ensures { IfOk result (λ c. range_left_of c ≡ range_left_of left.now) }
{
    match left {
        RangeLeft::Nothing => Ok(RangeLeft::Nothing),
        RangeLeft::Assigns(exprs) => Ok(RangeLeft::Assigns(copy_exprs(alloc, exprs)?)),
        RangeLeft::Defines(names) => Ok(RangeLeft::Defines(copy_names(alloc, names)?)),
    }
}

#[cycle(copy_tree)]
fn copy_arm(alloc: Global, arm: &Arm) -> Result<Arm, NoMemory>
    ensures { IfOk result (λ c. arm_of c ≡ arm_of arm.now) }
{
    let first = copy_stmt_option(alloc, &arm.first)?;
    let body = copy_block(alloc, &arm.body)?;
    Ok(Arm::new(arm.span, first, copy_expr(alloc, &arm.test)?, body))
}

#[cycle(copy_tree)]
fn copy_arms(alloc: Global, arms: &ArmList) -> Result<ArmList, NoMemory>
    ensures { IfOk result (λ c. arms_of c ≡ arms_of arms.now) }
{
    let mut copies = Vec::new(alloc);
    for arm in arms.items() {
        copies.push(copy_arm(alloc, arm)?)?;
    }
    Ok(ArmList::of(copies))
}

#[cycle(copy_tree)]
fn copy_case(alloc: Global, case: &Case) -> Result<Case, NoMemory>
    ensures { IfOk result (λ c. case_of c ≡ case_of case.now) }
{
    let values = copy_exprs(alloc, &case.values)?;
    Ok(Case::new(case.span, values, copy_stmts(alloc, &case.body)?))
}

#[cycle(copy_tree)]
fn copy_cases(alloc: Global, cases: &CaseList) -> Result<CaseList, NoMemory>
    ensures { IfOk result (λ c. cases_of c ≡ cases_of cases.now) }
{
    let mut copies = Vec::new(alloc);
    for case in cases.items() {
        copies.push(copy_case(alloc, case)?)?;
    }
    Ok(CaseList::of(copies))
}

#[cycle(copy_tree)]
fn copy_const_spec(alloc: Global, spec: &ConstSpec) -> Result<ConstSpec, NoMemory>
    ensures { IfOk result (λ c. const_spec_of c ≡ const_spec_of spec.now) }
{
    let names = copy_names(alloc, &spec.names)?;
    let values = copy_exprs(alloc, &spec.values)?;
    let of = copy_type_option(alloc, &spec.of)?;
    Ok(ConstSpec::new(spec.span, names, of, values))
}

#[cycle(copy_tree)]
fn copy_const_specs(alloc: Global, specs: &ConstSpecList) -> Result<ConstSpecList, NoMemory>
    ensures { IfOk result (λ c. const_specs_of c ≡ const_specs_of specs.now) }
{
    let mut copies = Vec::new(alloc);
    for spec in specs.items() {
        copies.push(copy_const_spec(alloc, spec)?)?;
    }
    Ok(ConstSpecList::of(copies))
}

#[cycle(copy_tree)]
fn copy_var_spec(alloc: Global, spec: &VarSpec) -> Result<VarSpec, NoMemory>
    ensures { IfOk result (λ c. var_spec_of c ≡ var_spec_of spec.now) }
{
    let names = copy_names(alloc, &spec.names)?;
    let values = copy_exprs(alloc, &spec.values)?;
    let of = copy_type_option(alloc, &spec.of)?;
    Ok(VarSpec::new(spec.span, names, of, values))
}

#[cycle(copy_tree)]
fn copy_var_specs(alloc: Global, specs: &VarSpecList) -> Result<VarSpecList, NoMemory>
    ensures { IfOk result (λ c. var_specs_of c ≡ var_specs_of specs.now) }
{
    let mut copies = Vec::new(alloc);
    for spec in specs.items() {
        copies.push(copy_var_spec(alloc, spec)?)?;
    }
    Ok(VarSpecList::of(copies))
}
