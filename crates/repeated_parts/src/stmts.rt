//! Flags of the parts of statements.

ghost use Rattle.std.specs.Prelude.{◌≡◌, OnOk};
ghost use Rattle.go_tree.specs.View.{held_block_option_of, stmt_of, stmts_of, boxed_stmt_option_of, range_left_of};
ghost use Rattle.go_tree.specs.View.{arms_of, cases_of, const_specs_of, var_specs_of};
ghost use Rattle.repeated_parts.specs.Flags.{flags_stmt, flags_stmts, flags_block_option, flags_stmt_option};
ghost use Rattle.repeated_parts.specs.Flags.{flags_left, flags_arms, flags_cases, flags_group, flags_specs};
ghost use Rattle.repeated_parts.specs.LiteralTypes.Views.{numbers_of};

use crate::exprs::{expr_flags, exprs_flags, option_flags};
use crate::groups::is_repeated;
use crate::literal_types::TypeScopes;
use crate::types::type_option_flags;
use go_tree::{
    ArmList, Block, CaseList, ConstSpecList, NoMemory, RangeLeft, Stmt, StmtList, VarSpecList,
};

#[cycle(tree_flags)]
fn stmt_flags(
    scopes: &TypeScopes,
    s: &Stmt,
    repeated: bool,
    flags: &mut Vec<Option<bool>>,
) -> Result<(), NoMemory>
    ensures { OnOk result (flags.new.items
        ≡ flags_stmt (numbers_of scopes.now) repeated (stmt_of s.now) flags.old.items) }
{
    match s {
        Stmt::Const(decl) => group_flags(scopes, &decl.specs, flags),
        Stmt::Var(decl) => var_specs_flags(scopes, &decl.specs, repeated, flags),
        Stmt::Empty { .. } | Stmt::Break { .. } | Stmt::Continue { .. } => Ok(()),
        Stmt::Eval { e, .. } | Stmt::Step { e, .. } | Stmt::Defer { call: e, .. } => {
            expr_flags(scopes, e, repeated, flags)
        }
        Stmt::Assign { left, right, .. } => {
            exprs_flags(scopes, left, repeated, flags)?;
            exprs_flags(scopes, right, repeated, flags)
        }
        Stmt::Define { right, .. } => exprs_flags(scopes, right, repeated, flags),
        Stmt::Return { values, .. } => exprs_flags(scopes, values, repeated, flags),
        Stmt::Inner(block) => stmts_flags(scopes, &block.stmts, repeated, flags),
        Stmt::If { arms, last, .. } => {
            arms_flags(scopes, arms, repeated, flags)?;
            block_option_flags(scopes, last, repeated, flags)
        }
        Stmt::For {
            first,
            test,
            post,
            body,
            ..
        } => {
            stmt_option_flags(scopes, first, repeated, flags)?;
            option_flags(scopes, test, repeated, flags)?;
            stmt_option_flags(scopes, post, repeated, flags)?;
            stmts_flags(scopes, &body.stmts, repeated, flags)
        }
        Stmt::Range {
            left,
            over,
            body,
            ..
        } => {
            left_flags(scopes, left, repeated, flags)?;
            expr_flags(scopes, over, repeated, flags)?;
            stmts_flags(scopes, &body.stmts, repeated, flags)
        }
        Stmt::Switch {
            first,
            tag,
            cases,
            ..
        } => {
            stmt_option_flags(scopes, first, repeated, flags)?;
            option_flags(scopes, tag, repeated, flags)?;
            cases_flags(scopes, cases, repeated, flags)
        }
        Stmt::Label { stmt, .. } => stmt_flags(scopes, stmt, repeated, flags),
    }
}

#[cycle(tree_flags)]
pub(crate) fn stmts_flags(
    scopes: &TypeScopes,
    stmts: &StmtList,
    repeated: bool,
    flags: &mut Vec<Option<bool>>,
) -> Result<(), NoMemory>
    ensures { OnOk result (flags.new.items
        ≡ flags_stmts (numbers_of scopes.now) repeated (stmts_of stmts.now) flags.old.items) }
{
    for stmt in stmts.items() {
        stmt_flags(scopes, stmt, repeated, flags)?;
    }
    Ok(())
}

#[cycle(tree_flags)]
fn block_option_flags(
    scopes: &TypeScopes,
    block: &Option<Block>,
    repeated: bool,
    flags: &mut Vec<Option<bool>>,
) -> Result<(), NoMemory>
    ensures { OnOk result (flags.new.items
        ≡ flags_block_option (numbers_of scopes.now) repeated (held_block_option_of block.now) flags.old.items) }
{
    match block {
        None => Ok(()),
        Some(block) => stmts_flags(scopes, &block.stmts, repeated, flags),
    }
}

#[cycle(tree_flags)]
fn stmt_option_flags(
    scopes: &TypeScopes,
    stmt: &Option<Box<Stmt>>,
    repeated: bool,
    flags: &mut Vec<Option<bool>>,
) -> Result<(), NoMemory>
    ensures { OnOk result (flags.new.items
        ≡ flags_stmt_option (numbers_of scopes.now) repeated (boxed_stmt_option_of stmt.now) flags.old.items) }
{
    match stmt {
        None => Ok(()),
        Some(stmt) => stmt_flags(scopes, stmt, repeated, flags),
    }
}

#[cycle(tree_flags)]
fn left_flags(
    scopes: &TypeScopes,
    left: &RangeLeft,
    repeated: bool,
    flags: &mut Vec<Option<bool>>,
) -> Result<(), NoMemory>
    ensures { OnOk result (flags.new.items
        ≡ flags_left (numbers_of scopes.now) repeated (range_left_of left.now) flags.old.items) }
{
    match left {
        RangeLeft::Nothing | RangeLeft::Defines(_) => Ok(()),
        RangeLeft::Assigns(exprs) => exprs_flags(scopes, exprs, repeated, flags),
    }
}

#[cycle(tree_flags)]
fn arms_flags(
    scopes: &TypeScopes,
    arms: &ArmList,
    repeated: bool,
    flags: &mut Vec<Option<bool>>,
) -> Result<(), NoMemory>
    ensures { OnOk result (flags.new.items
        ≡ flags_arms (numbers_of scopes.now) repeated (arms_of arms.now) flags.old.items) }
{
    for arm in arms.items() {
        stmt_option_flags(scopes, &arm.first, repeated, flags)?;
        expr_flags(scopes, &arm.test, repeated, flags)?;
        stmts_flags(scopes, &arm.body.stmts, repeated, flags)?;
    }
    Ok(())
}

#[cycle(tree_flags)]
fn cases_flags(
    scopes: &TypeScopes,
    cases: &CaseList,
    repeated: bool,
    flags: &mut Vec<Option<bool>>,
) -> Result<(), NoMemory>
    ensures { OnOk result (flags.new.items
        ≡ flags_cases (numbers_of scopes.now) repeated (cases_of cases.now) flags.old.items) }
{
    for case in cases.items() {
        exprs_flags(scopes, &case.values, repeated, flags)?;
        stmts_flags(scopes, &case.body, repeated, flags)?;
    }
    Ok(())
}

/// A group of constants in a function.
#[cycle(tree_flags)]
fn group_flags(
    scopes: &TypeScopes,
    group: &ConstSpecList,
    flags: &mut Vec<Option<bool>>,
) -> Result<(), NoMemory>
    ensures { OnOk result (flags.new.items
        ≡ flags_group (numbers_of scopes.now) (const_specs_of group.now) flags.old.items) }
{
    let specs = group.items();
    for (at, spec) in specs.iter().enumerate() {
        let repeated = is_repeated(specs, at + 1);
        type_option_flags(&spec.of, repeated, flags)?;
        exprs_flags(scopes, &spec.values, repeated, flags)?;
    }
    Ok(())
}

#[cycle(tree_flags)]
pub(crate) fn var_specs_flags(
    scopes: &TypeScopes,
    specs: &VarSpecList,
    repeated: bool,
    flags: &mut Vec<Option<bool>>,
) -> Result<(), NoMemory>
    ensures { OnOk result (flags.new.items
        ≡ flags_specs (numbers_of scopes.now) repeated (var_specs_of specs.now) flags.old.items) }
{
    for spec in specs.items() {
        type_option_flags(&spec.of, repeated, flags)?;
        exprs_flags(scopes, &spec.values, repeated, flags)?;
    }
    Ok(())
}
