//! Names that statements use.

ghost use Rattle.std.specs.Prelude.{◌≡◌, OnOk};
ghost use Rattle.go_tree.specs.View.{arms_of, boxed_stmt_option_of, cases_of, const_specs_of, held_block_option_of};
ghost use Rattle.go_tree.specs.View.{range_left_of, stmt_of, stmts_of, var_specs_of};
ghost use Rattle.used_names.specs.Uses.{within};
ghost use Rattle.used_names.specs.Walks.{after_arms, after_block_option, after_cases, after_left, after_post};
ghost use Rattle.used_names.specs.Walks.{after_specs, after_stmt, after_stmt_option, after_stmts, begin_left};
ghost use Rattle.name_uses.specs.Walk.{walk_of, walked};

use crate::body_uses::exprs::{expr_uses, exprs_uses, lefts_uses, option_uses};
use crate::{NameUses, declare_all, type_option_uses};
use go_tree::{
    ArmList, Block, CaseList, ConstSpecList, NoMemory, RangeLeft, Stmt, StmtList, VarSpecList,
};

#[cycle(tree_uses)]
fn stmt_uses(uses: &mut NameUses, s: &Stmt) -> Result<(), NoMemory>
    ensures { OnOk result (walk_of uses.new ≡ walked (after_stmt (stmt_of s.now)) (walk_of uses.old)) }
{
    match s {
        Stmt::Const(decl) => const_specs_uses(uses, &decl.specs),
        Stmt::Var(decl) => var_specs_uses(uses, &decl.specs),
        Stmt::Empty { .. } | Stmt::Break { .. } | Stmt::Continue { .. } => Ok(()),
        Stmt::Eval { e, .. } | Stmt::Step { e, .. } | Stmt::Defer { call: e, .. } => {
            expr_uses(uses, e)
        }
        Stmt::Assign {
            left,
            op,
            right,
            ..
        } => match op {
            None => {
                lefts_uses(uses, left)?;
                exprs_uses(uses, right)
            }
            Some(_) => {
                exprs_uses(uses, left)?;
                exprs_uses(uses, right)
            }
        },
        Stmt::Define { names, right, .. } => {
            exprs_uses(uses, right)?;
            declare_all(uses, names)
        }
        Stmt::Return { values, .. } => exprs_uses(uses, values),
        Stmt::Inner(block) => block_uses(uses, block),
        Stmt::If { arms, last, .. } => {
            let depth = uses.depth();
            arms_uses(uses, arms)?;
            block_option_uses(uses, last)?;
            uses.leave(depth);
            Ok(())
        }
        Stmt::For {
            first,
            test,
            post,
            body,
            ..
        } => {
            let depth = uses.depth();
            stmt_option_uses(uses, first)?;
            option_uses(uses, test)?;
            post_uses(uses, post)?;
            block_uses(uses, body)?;
            uses.leave(depth);
            Ok(())
        }
        Stmt::Range {
            left,
            over,
            body,
            ..
        } => {
            let depth = uses.depth();
            left_uses(uses, left)?;
            expr_uses(uses, over)?;
            begin_left(uses, left)?;
            block_uses(uses, body)?;
            uses.leave(depth);
            Ok(())
        }
        Stmt::Switch {
            first,
            tag,
            cases,
            ..
        } => {
            let depth = uses.depth();
            stmt_option_uses(uses, first)?;
            option_uses(uses, tag)?;
            cases_uses(uses, cases)?;
            uses.leave(depth);
            Ok(())
        }
        Stmt::Label { stmt, .. } => stmt_uses(uses, stmt),
    }
}

/// The names that the statements of a block use; those that they declare are local then.
#[cycle(tree_uses)]
pub fn stmts_uses(uses: &mut NameUses, stmts: &StmtList) -> Result<(), NoMemory>
    ensures { OnOk result (walk_of uses.new ≡ walked (after_stmts (stmts_of stmts.now)) (walk_of uses.old)) }
{
    for stmt in stmts.items() {
        stmt_uses(uses, stmt)?;
    }
    Ok(())
}

#[cycle(tree_uses)]
fn block_uses(uses: &mut NameUses, block: &Block) -> Result<(), NoMemory>
    ensures { OnOk result (walk_of uses.new ≡ walked (within (after_stmts (stmts_of block.now.stmts))) (walk_of uses.old)) }
{
    let depth = uses.depth();
    stmts_uses(uses, &block.stmts)?;
    uses.leave(depth);
    Ok(())
}

#[cycle(tree_uses)]
fn block_option_uses(uses: &mut NameUses, block: &Option<Block>) -> Result<(), NoMemory>
    ensures { OnOk result (walk_of uses.new ≡ walked (after_block_option (held_block_option_of block.now)) (walk_of uses.old)) }
{
    match block {
        None => Ok(()),
        Some(block) => block_uses(uses, block),
    }
}

#[cycle(tree_uses)]
fn stmt_option_uses(uses: &mut NameUses, stmt: &Option<Box<Stmt>>) -> Result<(), NoMemory>
    ensures { OnOk result (walk_of uses.new ≡ walked (after_stmt_option (boxed_stmt_option_of stmt.now)) (walk_of uses.old)) }
{
    match stmt {
        None => Ok(()),
        Some(stmt) => stmt_uses(uses, stmt),
    }
}

/// The last statement in the header of a `for`.
#[cycle(tree_uses)]
fn post_uses(uses: &mut NameUses, stmt: &Option<Box<Stmt>>) -> Result<(), NoMemory>
    ensures { OnOk result (walk_of uses.new ≡ walked (after_post (boxed_stmt_option_of stmt.now)) (walk_of uses.old)) }
{
    match stmt {
        None => Ok(()),
        Some(stmt) => {
            let depth = uses.depth();
            stmt_uses(uses, stmt)?;
            uses.leave(depth);
            Ok(())
        }
    }
}

/// The left side of a range clause.
#[cycle(tree_uses)]
fn left_uses(uses: &mut NameUses, left: &RangeLeft) -> Result<(), NoMemory>
    ensures { OnOk result (walk_of uses.new ≡ walked (after_left (range_left_of left.now)) (walk_of uses.old)) }
{
    match left {
        RangeLeft::Nothing | RangeLeft::Defines(_) => Ok(()),
        RangeLeft::Assigns(exprs) => lefts_uses(uses, exprs),
    }
}

/// The variables of a range clause.
fn begin_left(uses: &mut NameUses, left: &RangeLeft) -> Result<(), NoMemory>
    ensures { OnOk result (walk_of uses.new ≡ walked (begin_left (range_left_of left.now)) (walk_of uses.old)) }
{
    match left {
        RangeLeft::Nothing | RangeLeft::Assigns(_) => Ok(()),
        RangeLeft::Defines(names) => declare_all(uses, names),
    }
}

#[cycle(tree_uses)]
fn arms_uses(uses: &mut NameUses, arms: &ArmList) -> Result<(), NoMemory>
    ensures { OnOk result (walk_of uses.new ≡ walked (after_arms (arms_of arms.now)) (walk_of uses.old)) }
{
    for arm in arms.items() {
        stmt_option_uses(uses, &arm.first)?;
        expr_uses(uses, &arm.test)?;
        block_uses(uses, &arm.body)?;
    }
    Ok(())
}

#[cycle(tree_uses)]
fn cases_uses(uses: &mut NameUses, cases: &CaseList) -> Result<(), NoMemory>
    ensures { OnOk result (walk_of uses.new ≡ walked (after_cases (cases_of cases.now)) (walk_of uses.old)) }
{
    for case in cases.items() {
        exprs_uses(uses, &case.values)?;
        let depth = uses.depth();
        stmts_uses(uses, &case.body)?;
        uses.leave(depth);
    }
    Ok(())
}

#[cycle(tree_uses)]
fn const_specs_uses(uses: &mut NameUses, specs: &ConstSpecList) -> Result<(), NoMemory>
    ensures { OnOk result (walk_of uses.new ≡ walked (after_specs (const_specs_of specs.now)) (walk_of uses.old)) }
{
    for spec in specs.items() {
        type_option_uses(uses, &spec.of)?;
        exprs_uses(uses, &spec.values)?;
        declare_all(uses, &spec.names)?;
    }
    Ok(())
}

#[cycle(tree_uses)]
fn var_specs_uses(uses: &mut NameUses, specs: &VarSpecList) -> Result<(), NoMemory>
    ensures { OnOk result (walk_of uses.new ≡ walked (after_specs (var_specs_of specs.now)) (walk_of uses.old)) }
{
    for spec in specs.items() {
        type_option_uses(uses, &spec.of)?;
        exprs_uses(uses, &spec.values)?;
        declare_all(uses, &spec.names)?;
    }
    Ok(())
}
