//! Parts of statements.

ghost use Rattle.std.specs.Prelude.{◌≡◌, OnOk, map};
ghost use Rattle.go_tree.specs.View.{held_block_option_of, stmt_of, stmts_of, boxed_stmt_option_of, range_left_of};
ghost use Rattle.go_tree.specs.View.{arms_of, cases_of, const_specs_of, var_specs_of};
ghost use Rattle.member_uses.specs.PossibleUses.Views.{part_of};
ghost use Rattle.member_uses.specs.PossibleUses.Parts.{after_stmt, after_stmts, after_block_option, after_stmt_option, after_left};
ghost use Rattle.member_uses.specs.PossibleUses.Parts.{after_arms, after_cases, after_specs};

use crate::possible_uses::exprs::{expr_parts, exprs_parts, option_parts};
use crate::possible_uses::parts::PartRef;
use crate::possible_uses::types::type_option_parts;
use go_tree::{
    ArmList, Block, CaseList, ConstSpecList, NoMemory, RangeLeft, Stmt, StmtList, VarSpecList,
};

#[cycle(tree_parts)]
fn stmt_parts<'a>(s: &'a Stmt, list: &mut Vec<PartRef<'a>>) -> Result<(), NoMemory>
    ensures { OnOk result (map part_of list.new.items
        ≡ after_stmt (stmt_of s.now) (map part_of list.old.items)) }
{
    match s {
        Stmt::Const(decl) => const_specs_parts(&decl.specs, list),
        Stmt::Var(decl) => var_specs_parts(&decl.specs, list),
        Stmt::Empty { .. } | Stmt::Break { .. } | Stmt::Continue { .. } => Ok(()),
        Stmt::Eval { e, .. } | Stmt::Step { e, .. } | Stmt::Defer { call: e, .. } => {
            expr_parts(e, list)
        }
        Stmt::Assign { left, right, .. } => {
            exprs_parts(left, list)?;
            exprs_parts(right, list)
        }
        Stmt::Define { right, .. } => exprs_parts(right, list),
        Stmt::Return { values, .. } => exprs_parts(values, list),
        Stmt::Inner(block) => stmts_parts(&block.stmts, list),
        Stmt::If { arms, last, .. } => {
            arms_parts(arms, list)?;
            block_option_parts(last, list)
        }
        Stmt::For {
            first,
            test,
            post,
            body,
            ..
        } => {
            stmt_option_parts(first, list)?;
            option_parts(test, list)?;
            stmt_option_parts(post, list)?;
            stmts_parts(&body.stmts, list)
        }
        Stmt::Range {
            left,
            over,
            body,
            ..
        } => {
            left_parts(left, list)?;
            expr_parts(over, list)?;
            stmts_parts(&body.stmts, list)
        }
        Stmt::Switch {
            first,
            tag,
            cases,
            ..
        } => {
            stmt_option_parts(first, list)?;
            option_parts(tag, list)?;
            cases_parts(cases, list)
        }
        Stmt::Label { stmt, .. } => stmt_parts(stmt, list),
    }
}

#[cycle(tree_parts)]
pub(crate) fn stmts_parts<'a>(
    stmts: &'a StmtList,
    list: &mut Vec<PartRef<'a>>,
) -> Result<(), NoMemory>
    ensures { OnOk result (map part_of list.new.items
        ≡ after_stmts (stmts_of stmts.now) (map part_of list.old.items)) }
{
    for stmt in stmts.items() {
        stmt_parts(stmt, list)?;
    }
    Ok(())
}

#[cycle(tree_parts)]
fn block_option_parts<'a>(
    block: &'a Option<Block>,
    list: &mut Vec<PartRef<'a>>,
) -> Result<(), NoMemory>
    ensures { OnOk result (map part_of list.new.items
        ≡ after_block_option (held_block_option_of block.now) (map part_of list.old.items)) }
{
    match block {
        None => Ok(()),
        Some(block) => stmts_parts(&block.stmts, list),
    }
}

#[cycle(tree_parts)]
fn stmt_option_parts<'a>(
    stmt: &'a Option<Box<Stmt>>,
    list: &mut Vec<PartRef<'a>>,
) -> Result<(), NoMemory>
    ensures { OnOk result (map part_of list.new.items
        ≡ after_stmt_option (boxed_stmt_option_of stmt.now) (map part_of list.old.items)) }
{
    match stmt {
        None => Ok(()),
        Some(stmt) => stmt_parts(stmt, list),
    }
}

#[cycle(tree_parts)]
fn left_parts<'a>(left: &'a RangeLeft, list: &mut Vec<PartRef<'a>>) -> Result<(), NoMemory>
    ensures { OnOk result (map part_of list.new.items
        ≡ after_left (range_left_of left.now) (map part_of list.old.items)) }
{
    match left {
        RangeLeft::Nothing | RangeLeft::Defines(_) => Ok(()),
        RangeLeft::Assigns(exprs) => exprs_parts(exprs, list),
    }
}

#[cycle(tree_parts)]
fn arms_parts<'a>(arms: &'a ArmList, list: &mut Vec<PartRef<'a>>) -> Result<(), NoMemory>
    ensures { OnOk result (map part_of list.new.items
        ≡ after_arms (arms_of arms.now) (map part_of list.old.items)) }
{
    for arm in arms.items() {
        stmt_option_parts(&arm.first, list)?;
        expr_parts(&arm.test, list)?;
        stmts_parts(&arm.body.stmts, list)?;
    }
    Ok(())
}

#[cycle(tree_parts)]
fn cases_parts<'a>(cases: &'a CaseList, list: &mut Vec<PartRef<'a>>) -> Result<(), NoMemory>
    ensures { OnOk result (map part_of list.new.items
        ≡ after_cases (cases_of cases.now) (map part_of list.old.items)) }
{
    for case in cases.items() {
        exprs_parts(&case.values, list)?;
        stmts_parts(&case.body, list)?;
    }
    Ok(())
}

#[cycle(tree_parts)]
pub(crate) fn const_specs_parts<'a>(
    specs: &'a ConstSpecList,
    list: &mut Vec<PartRef<'a>>,
) -> Result<(), NoMemory>
    ensures { OnOk result (map part_of list.new.items
        ≡ after_specs (const_specs_of specs.now) (map part_of list.old.items)) }
{
    for spec in specs.items() {
        type_option_parts(&spec.of, list)?;
        exprs_parts(&spec.values, list)?;
    }
    Ok(())
}

#[cycle(tree_parts)]
pub(crate) fn var_specs_parts<'a>(
    specs: &'a VarSpecList,
    list: &mut Vec<PartRef<'a>>,
) -> Result<(), NoMemory>
    ensures { OnOk result (map part_of list.new.items
        ≡ after_specs (var_specs_of specs.now) (map part_of list.old.items)) }
{
    for spec in specs.items() {
        type_option_parts(&spec.of, list)?;
        exprs_parts(&spec.values, list)?;
    }
    Ok(())
}
