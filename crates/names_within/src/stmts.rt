//! Names in statements.

ghost use Rattle.std.specs.Prelude.{◌≡◌, OnOk};
ghost use Rattle.go_tree.specs.View.{held_block_option_of, stmt_of, stmts_of, boxed_stmt_option_of, range_left_of};
ghost use Rattle.go_tree.specs.View.{arm_of, arms_of, case_of, cases_of, const_spec_of, const_specs_of, const_decl_of};
ghost use Rattle.go_tree.specs.View.{var_spec_of, var_specs_of, var_decl_of};
ghost use Rattle.name_walks.specs.Walk.{walk_of};
ghost use Rattle.names_within.specs.TreeWalk.{after_stmt, after_stmts, after_block, after_block_option};
ghost use Rattle.names_within.specs.TreeWalk.{after_stmt_option, after_post, after_left, begin_left, after_arm};
ghost use Rattle.names_within.specs.TreeWalk.{after_arms, after_case, after_cases, after_spec, after_specs};

use crate::exprs::{expr_end, expr_names, exprs_names, option_names};
use crate::types::{begin_all, bind_all, mention_option, type_option_names};
use go_tree::{
    Arm, ArmList, Block, Case, CaseList, ConstDecl, ConstSpec, ConstSpecList, NoMemory, RangeLeft,
    Stmt, StmtList, VarDecl, VarSpec, VarSpecList,
};
use name_walks::NameWalk;

#[cycle(tree_names)]
fn stmt_names(names: &mut NameWalk, s: &Stmt) -> Result<(), NoMemory>
    ensures { OnOk result (walk_of names.new ≡ after_stmt (stmt_of s.now) (walk_of names.old)) }
{
    match s {
        Stmt::Const(decl) => const_decl_names(names, decl),
        Stmt::Var(decl) => var_decl_names(names, decl),
        Stmt::Empty { .. } => Ok(()),
        Stmt::Eval { e, .. } | Stmt::Step { e, .. } | Stmt::Defer { call: e, .. } => {
            expr_names(names, e)
        }
        Stmt::Assign { left, right, .. } => {
            exprs_names(names, left)?;
            exprs_names(names, right)
        }
        Stmt::Define {
            span,
            names: list,
            right,
        } => {
            bind_all(names, list)?;
            exprs_names(names, right)?;
            begin_all(names, true, span.end, list)
        }
        Stmt::Return { values, .. } => exprs_names(names, values),
        Stmt::Break { label, .. } | Stmt::Continue { label, .. } => mention_option(names, label),
        Stmt::Inner(block) => block_names(names, block),
        Stmt::If { span, arms, last } => {
            let mark = names.nesting();
            arms_names(names, span.end, arms)?;
            block_option_names(names, last)?;
            names.leave(mark);
            Ok(())
        }
        Stmt::For {
            span,
            first,
            test,
            post,
            body,
        } => {
            let mark = names.nesting();
            names.enter(span.end)?;
            stmt_option_names(names, first)?;
            option_names(names, test)?;
            post_names(names, span.end, post)?;
            block_names(names, body)?;
            names.leave(mark);
            Ok(())
        }
        Stmt::Range {
            span,
            left,
            over,
            body,
        } => {
            let mark = names.nesting();
            names.enter(span.end)?;
            left_names(names, left)?;
            expr_names(names, over)?;
            begin_left(names, expr_end(over), left)?;
            block_names(names, body)?;
            names.leave(mark);
            Ok(())
        }
        Stmt::Switch {
            span,
            first,
            tag,
            cases,
        } => {
            let mark = names.nesting();
            names.enter(span.end)?;
            stmt_option_names(names, first)?;
            option_names(names, tag)?;
            cases_names(names, cases)?;
            names.leave(mark);
            Ok(())
        }
        Stmt::Label { name, stmt, .. } => {
            names.mention(&name.name)?;
            stmt_names(names, stmt)
        }
    }
}

#[cycle(tree_names)]
pub(crate) fn stmts_names(names: &mut NameWalk, stmts: &StmtList) -> Result<(), NoMemory>
    ensures { OnOk result (walk_of names.new ≡ after_stmts (stmts_of stmts.now) (walk_of names.old)) }
{
    for stmt in stmts.items() {
        stmt_names(names, stmt)?;
    }
    Ok(())
}

#[cycle(tree_names)]
#[tactic(auto, using(crate::proofs::ListWalks::block_left))]
pub(crate) fn block_names(names: &mut NameWalk, block: &Block) -> Result<(), NoMemory>
    ensures { OnOk result (walk_of names.new
        ≡ after_block block.now.span.end (stmts_of block.now.stmts) (walk_of names.old)) }
{
    let mark = names.nesting();
    names.enter(block.span.end)?;
    stmts_names(names, &block.stmts)?;
    names.leave(mark);
    Ok(())
}

#[cycle(tree_names)]
fn block_option_names(names: &mut NameWalk, block: &Option<Block>) -> Result<(), NoMemory>
    ensures { OnOk result (walk_of names.new
        ≡ after_block_option (held_block_option_of block.now) (walk_of names.old)) }
{
    match block {
        None => Ok(()),
        Some(block) => block_names(names, block),
    }
}

#[cycle(tree_names)]
fn stmt_option_names(names: &mut NameWalk, stmt: &Option<Box<Stmt>>) -> Result<(), NoMemory>
    ensures { OnOk result (walk_of names.new ≡ after_stmt_option (boxed_stmt_option_of stmt.now) (walk_of names.old)) }
{
    match stmt {
        None => Ok(()),
        Some(stmt) => stmt_names(names, stmt),
    }
}

#[cycle(tree_names)]
fn post_names(names: &mut NameWalk, to: u32, stmt: &Option<Box<Stmt>>) -> Result<(), NoMemory>
    ensures { OnOk result (walk_of names.new ≡ after_post to (boxed_stmt_option_of stmt.now) (walk_of names.old)) }
{
    match stmt {
        None => Ok(()),
        Some(stmt) => {
            let mark = names.nesting();
            names.enter(to)?;
            stmt_names(names, stmt)?;
            names.leave(mark);
            Ok(())
        }
    }
}

#[cycle(tree_names)]
fn left_names(names: &mut NameWalk, left: &RangeLeft) -> Result<(), NoMemory>
    ensures { OnOk result (walk_of names.new ≡ after_left (range_left_of left.now) (walk_of names.old)) }
{
    match left {
        RangeLeft::Nothing => Ok(()),
        RangeLeft::Assigns(exprs) => exprs_names(names, exprs),
        RangeLeft::Defines(list) => bind_all(names, list),
    }
}

/// The names that the clause defines, whose scopes begin at `from`.
fn begin_left(names: &mut NameWalk, from: u32, left: &RangeLeft) -> Result<(), NoMemory>
    ensures { OnOk result (walk_of names.new ≡ begin_left from (range_left_of left.now) (walk_of names.old)) }
{
    match left {
        RangeLeft::Nothing | RangeLeft::Assigns(_) => Ok(()),
        RangeLeft::Defines(list) => begin_all(names, false, from, list),
    }
}

#[cycle(tree_names)]
fn arm_names(names: &mut NameWalk, to: u32, arm: &Arm) -> Result<(), NoMemory>
    ensures { OnOk result (walk_of names.new ≡ after_arm to (arm_of arm.now) (walk_of names.old)) }
{
    names.enter(to)?;
    stmt_option_names(names, &arm.first)?;
    expr_names(names, &arm.test)?;
    block_names(names, &arm.body)
}

#[cycle(tree_names)]
fn arms_names(names: &mut NameWalk, to: u32, arms: &ArmList) -> Result<(), NoMemory>
    ensures { OnOk result (walk_of names.new ≡ after_arms to (arms_of arms.now) (walk_of names.old)) }
{
    for arm in arms.items() {
        arm_names(names, to, arm)?;
    }
    Ok(())
}

#[cycle(tree_names)]
#[tactic(auto, using(crate::proofs::ListWalks::block_left))]
fn case_names(names: &mut NameWalk, case: &Case) -> Result<(), NoMemory>
    ensures { OnOk result (walk_of names.new ≡ after_case (case_of case.now) (walk_of names.old)) }
{
    exprs_names(names, &case.values)?;
    let mark = names.nesting();
    names.enter(case.span.end)?;
    stmts_names(names, &case.body)?;
    names.leave(mark);
    Ok(())
}

#[cycle(tree_names)]
fn cases_names(names: &mut NameWalk, cases: &CaseList) -> Result<(), NoMemory>
    ensures { OnOk result (walk_of names.new ≡ after_cases (cases_of cases.now) (walk_of names.old)) }
{
    for case in cases.items() {
        case_names(names, case)?;
    }
    Ok(())
}

#[cycle(tree_names)]
fn const_spec_names(names: &mut NameWalk, spec: &ConstSpec) -> Result<(), NoMemory>
    ensures { OnOk result (walk_of names.new ≡ after_spec (const_spec_of spec.now) (walk_of names.old)) }
{
    bind_all(names, &spec.names)?;
    type_option_names(names, &spec.of)?;
    exprs_names(names, &spec.values)?;
    begin_all(names, false, spec.span.end, &spec.names)
}

#[cycle(tree_names)]
fn const_specs_names(names: &mut NameWalk, specs: &ConstSpecList) -> Result<(), NoMemory>
    ensures { OnOk result (walk_of names.new ≡ after_specs (const_specs_of specs.now) (walk_of names.old)) }
{
    for spec in specs.items() {
        const_spec_names(names, spec)?;
    }
    Ok(())
}

#[cycle(tree_names)]
fn var_spec_names(names: &mut NameWalk, spec: &VarSpec) -> Result<(), NoMemory>
    ensures { OnOk result (walk_of names.new ≡ after_spec (var_spec_of spec.now) (walk_of names.old)) }
{
    bind_all(names, &spec.names)?;
    type_option_names(names, &spec.of)?;
    exprs_names(names, &spec.values)?;
    begin_all(names, false, spec.span.end, &spec.names)
}

#[cycle(tree_names)]
fn var_specs_names(names: &mut NameWalk, specs: &VarSpecList) -> Result<(), NoMemory>
    ensures { OnOk result (walk_of names.new ≡ after_specs (var_specs_of specs.now) (walk_of names.old)) }
{
    for spec in specs.items() {
        var_spec_names(names, spec)?;
    }
    Ok(())
}

#[cycle(tree_names)]
pub(crate) fn const_decl_names(names: &mut NameWalk, decl: &ConstDecl) -> Result<(), NoMemory>
    ensures { OnOk result (walk_of names.new ≡ after_stmt (const_decl_of decl.now) (walk_of names.old)) }
{
    const_specs_names(names, &decl.specs)
}

#[cycle(tree_names)]
pub(crate) fn var_decl_names(names: &mut NameWalk, decl: &VarDecl) -> Result<(), NoMemory>
    ensures { OnOk result (walk_of names.new ≡ after_stmt (var_decl_of decl.now) (walk_of names.old)) }
{
    var_specs_names(names, &decl.specs)
}
