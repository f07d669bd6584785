//! Statements as they are written at a use. What may fail comes before an expression that stands in no box or list: a
//! step that drops one is dear to check.

ghost use Rattle.std.specs.Prelude.{◌≡◌, IfOk};
ghost use Rattle.go_tree.specs.View.{block_of, held_block_option_of, stmt_of, stmts_of, boxed_stmt_option_of};
ghost use Rattle.go_tree.specs.View.{range_left_of, arm_of, arms_of, case_of, cases_of, const_spec_of, const_specs_of};
ghost use Rattle.go_tree.specs.View.{var_spec_of, var_specs_of};
ghost use Rattle.call_forms.specs.Written.{written_stmt, written_stmts, written_block, written_block_option};
ghost use Rattle.call_forms.specs.Written.{written_stmt_option, written_left, written_arm, written_arms, written_case};
ghost use Rattle.call_forms.specs.Written.{written_cases, written_spec, written_specs};

use crate::exprs::{written_expr, written_expr_option, written_exprs};
use crate::qualifiers::There;
use crate::types::{written_label, written_name, written_names, written_type_option};
use go_tree::{
    Arm, ArmList, Block, Case, CaseList, ConstDecl, ConstSpec, ConstSpecList, NoMemory, RangeLeft,
    Stmt, StmtList, VarDecl, VarSpec, VarSpecList, assign_stmt, break_stmt, const_stmt,
    continue_stmt, defer_stmt, define_stmt, empty_stmt, eval_stmt, for_stmt, if_stmt, inner_stmt,
    label_stmt, range_stmt, return_stmt, step_stmt, switch_stmt, var_stmt,
};
use std::alloc::Global;

/// A statement as it is written at the use.
#[cycle(written_tree)]
fn written_stmt(alloc: Global, there: &There, s: &Stmt) -> Result<Stmt, NoMemory>
    ensures { IfOk result (λ c. stmt_of c ≡ written_stmt there.now (stmt_of s.now)) }
{
    match s {
        Stmt::Const(decl) => {
            let specs = written_const_specs(alloc, there, &decl.specs)?;
            Ok(const_stmt(ConstDecl::new(there.span, decl.grouped, specs)))
        }
        Stmt::Var(decl) => {
            let specs = written_var_specs(alloc, there, &decl.specs)?;
            Ok(var_stmt(VarDecl::new(there.span, decl.grouped, specs)))
        }
        Stmt::Empty { .. } => Ok(empty_stmt(there.span)),
        Stmt::Eval { e, .. } => Ok(eval_stmt(there.span, written_expr(alloc, there, e)?)),
        Stmt::Step { e, up, .. } => Ok(step_stmt(there.span, written_expr(alloc, there, e)?, *up)),
        Stmt::Assign {
            left,
            op,
            right,
            ..
        } => {
            let left = written_exprs(alloc, there, left)?;
            Ok(assign_stmt(there.span, left, *op, written_exprs(alloc, there, right)?))
        }
        Stmt::Define { names, right, .. } => {
            let names = written_names(alloc, there, names)?;
            Ok(define_stmt(there.span, names, written_exprs(alloc, there, right)?))
        }
        Stmt::Return { values, .. } => Ok(return_stmt(
            there.span,
            written_exprs(alloc, there, values)?,
        )),
        Stmt::Break { label, .. } => {
            Ok(break_stmt(there.span, written_label(alloc, there, label)?))
        }
        Stmt::Continue { label, .. } => {
            Ok(continue_stmt(there.span, written_label(alloc, there, label)?))
        }
        Stmt::Inner(block) => Ok(inner_stmt(written_block(alloc, there, block)?)),
        Stmt::If { arms, last, .. } => {
            let arms = written_arms(alloc, there, arms)?;
            Ok(if_stmt(there.span, arms, written_block_option(alloc, there, last)?))
        }
        Stmt::For {
            first,
            test,
            post,
            body,
            ..
        } => {
            let first = written_stmt_option(alloc, there, first)?;
            let post = written_stmt_option(alloc, there, post)?;
            let body = written_block(alloc, there, body)?;
            let test = written_expr_option(alloc, there, test)?;
            Ok(for_stmt(there.span, first, test, post, body))
        }
        Stmt::Range {
            left,
            over,
            body,
            ..
        } => {
            let body = written_block(alloc, there, body)?;
            let left = written_range_left(alloc, there, left)?;
            Ok(range_stmt(there.span, left, written_expr(alloc, there, over)?, body))
        }
        Stmt::Switch {
            first,
            tag,
            cases,
            ..
        } => {
            let first = written_stmt_option(alloc, there, first)?;
            let cases = written_cases(alloc, there, cases)?;
            let tag = written_expr_option(alloc, there, tag)?;
            Ok(switch_stmt(there.span, first, tag, cases))
        }
        Stmt::Defer { call, .. } => Ok(defer_stmt(there.span, written_expr(alloc, there, call)?)),
        Stmt::Label { name, stmt, .. } => {
            let name = written_name(alloc, there, name)?;
            Ok(label_stmt(there.span, name, boxed_stmt(alloc, there, stmt)?))
        }
    }
}

/// A block as it is written at the use (Go specification, Blocks; Statements). An error where memory is refused.
#[cycle(written_tree)]
pub fn written_block(alloc: Global, there: &There, block: &Block) -> Result<Block, NoMemory>
    ensures { IfOk result (λ c. block_of c ≡ written_block there.now (block_of block.now)) }
{
    Ok(Block {
        span: there.span,
        stmts: written_stmts(alloc, there, &block.stmts)?,
    })
}

#[cycle(written_tree)]
fn written_block_option(
    alloc: Global,
    there: &There,
    block: &Option<Block>,
) -> Result<Option<Block>, NoMemory>
    ensures { IfOk result (λ c. held_block_option_of c
        ≡ written_block_option there.now (held_block_option_of block.now)) }
{
    match block {
        None => Ok(None),
        Some(block) => Ok(Some(written_block(alloc, there, block)?)),
    }
}

#[cycle(written_tree)]
fn written_stmts(alloc: Global, there: &There, stmts: &StmtList) -> Result<StmtList, NoMemory>
    ensures { IfOk result (λ c. stmts_of c ≡ written_stmts there.now (stmts_of stmts.now)) }
{
    let mut copies = Vec::new(alloc);
    for stmt in stmts.items() {
        copies.push(written_stmt(alloc, there, stmt)?)?;
    }
    Ok(StmtList::of(copies))
}

#[cycle(written_tree)]
fn boxed_stmt(alloc: Global, there: &There, stmt: &Box<Stmt>) -> Result<Box<Stmt>, NoMemory>
    ensures { IfOk result (λ c. stmt_of c.value ≡ written_stmt there.now (stmt_of stmt.now.value)) }
{
    Ok(Box::new(alloc, written_stmt(alloc, there, stmt)?)?)
}

#[cycle(written_tree)]
fn written_stmt_option(
    alloc: Global,
    there: &There,
    stmt: &Option<Box<Stmt>>,
) -> Result<Option<Box<Stmt>>, NoMemory>
    ensures { IfOk result (λ c. boxed_stmt_option_of c
        ≡ written_stmt_option there.now (boxed_stmt_option_of stmt.now)) }
{
    match stmt {
        None => Ok(None),
        Some(stmt) => Ok(Some(Box::new(alloc, written_stmt(alloc, there, stmt)?)?)),
    }
}

#[cycle(written_tree)]
fn written_range_left(alloc: Global, there: &There, left: &RangeLeft) -> Result<RangeLeft, NoMemory>
    ensures { IfOk result (λ c. range_left_of c ≡ written_left there.now (range_left_of left.now)) }
{
    match left {
        RangeLeft::Nothing => Ok(RangeLeft::Nothing),
        RangeLeft::Assigns(exprs) => Ok(RangeLeft::Assigns(written_exprs(alloc, there, exprs)?)),
        RangeLeft::Defines(names) => Ok(RangeLeft::Defines(written_names(alloc, there, names)?)),
    }
}

#[cycle(written_tree)]
fn written_arm(alloc: Global, there: &There, arm: &Arm) -> Result<Arm, NoMemory>
    ensures { IfOk result (λ c. arm_of c ≡ written_arm there.now (arm_of arm.now)) }
{
    let first = written_stmt_option(alloc, there, &arm.first)?;
    let body = written_block(alloc, there, &arm.body)?;
    Ok(Arm::new(
        there.span,
        first,
        written_expr(alloc, there, &arm.test)?,
        body,
    ))
}

#[cycle(written_tree)]
fn written_arms(alloc: Global, there: &There, arms: &ArmList) -> Result<ArmList, NoMemory>
    ensures { IfOk result (λ c. arms_of c ≡ written_arms there.now (arms_of arms.now)) }
{
    let mut copies = Vec::new(alloc);
    for arm in arms.items() {
        copies.push(written_arm(alloc, there, arm)?)?;
    }
    Ok(ArmList::of(copies))
}

#[cycle(written_tree)]
fn written_case(alloc: Global, there: &There, case: &Case) -> Result<Case, NoMemory>
    ensures { IfOk result (λ c. case_of c ≡ written_case there.now (case_of case.now)) }
{
    let values = written_exprs(alloc, there, &case.values)?;
    Ok(Case::new(there.span, values, written_stmts(alloc, there, &case.body)?))
}

#[cycle(written_tree)]
fn written_cases(alloc: Global, there: &There, cases: &CaseList) -> Result<CaseList, NoMemory>
    ensures { IfOk result (λ c. cases_of c ≡ written_cases there.now (cases_of cases.now)) }
{
    let mut copies = Vec::new(alloc);
    for case in cases.items() {
        copies.push(written_case(alloc, there, case)?)?;
    }
    Ok(CaseList::of(copies))
}

#[cycle(written_tree)]
fn written_const_spec(alloc: Global, there: &There, spec: &ConstSpec) -> Result<ConstSpec, NoMemory>
    ensures { IfOk result (λ c. const_spec_of c ≡ written_spec there.now (const_spec_of spec.now)) }
{
    let names = written_names(alloc, there, &spec.names)?;
    let values = written_exprs(alloc, there, &spec.values)?;
    let of = written_type_option(alloc, there, &spec.of)?;
    Ok(ConstSpec::new(there.span, names, of, values))
}

#[cycle(written_tree)]
fn written_const_specs(
    alloc: Global,
    there: &There,
    specs: &ConstSpecList,
) -> Result<ConstSpecList, NoMemory>
    ensures { IfOk result (λ c. const_specs_of c ≡ written_specs there.now (const_specs_of specs.now)) }
{
    let mut copies = Vec::new(alloc);
    for spec in specs.items() {
        copies.push(written_const_spec(alloc, there, spec)?)?;
    }
    Ok(ConstSpecList::of(copies))
}

#[cycle(written_tree)]
fn written_var_spec(alloc: Global, there: &There, spec: &VarSpec) -> Result<VarSpec, NoMemory>
    ensures { IfOk result (λ c. var_spec_of c ≡ written_spec there.now (var_spec_of spec.now)) }
{
    let names = written_names(alloc, there, &spec.names)?;
    let values = written_exprs(alloc, there, &spec.values)?;
    let of = written_type_option(alloc, there, &spec.of)?;
    Ok(VarSpec::new(there.span, names, of, values))
}

#[cycle(written_tree)]
fn written_var_specs(
    alloc: Global,
    there: &There,
    specs: &VarSpecList,
) -> Result<VarSpecList, NoMemory>
    ensures { IfOk result (λ c. var_specs_of c ≡ written_specs there.now (var_specs_of specs.now)) }
{
    let mut copies = Vec::new(alloc);
    for spec in specs.items() {
        copies.push(written_var_spec(alloc, there, spec)?)?;
    }
    Ok(VarSpecList::of(copies))
}
