//! How deep the nodes of statements are nested.

ghost use Rattle.std.specs.Prelude.{◌≡◌, ◌+◌};
ghost use Rattle.go_tree.specs.View.{held_block_option_of, stmt_of, stmts_of, boxed_stmt_option_of, range_left_of};
ghost use Rattle.go_tree.specs.View.{arms_of, cases_of, const_specs_of, const_decl_of, var_specs_of, var_decl_of};
ghost use Rattle.go_depth.specs.Depth.{capped, depth_stmt, depth_stmts, depth_stmt_option, depth_block_option};
ghost use Rattle.go_depth.specs.Depth.{depth_range_left, depth_arms, depth_cases, depth_value_specs};
ghost use Rattle.go_depth.specs.Deep.{arm_deep, case_deep, const_spec_deep, var_spec_deep};

use crate::depth_exprs::{depth, exprs_depth, option_depth};
use crate::depth_types::{above, deeper, name_option_depth, names_depth, type_option_depth};
use go_tree::{
    Arm, ArmList, Block, Case, CaseList, ConstDecl, ConstSpec, ConstSpecList, RangeLeft, Stmt,
    StmtList, VarDecl, VarSpec, VarSpecList,
};

#[cycle(tree_depth)]
fn stmt_depth(s: &Stmt) -> u32
    ensures { result ≡ capped (depth_stmt (stmt_of s.now)) }
{
    match s {
        Stmt::Const(decl) => const_decl_depth(decl),
        Stmt::Var(decl) => var_decl_depth(decl),
        Stmt::Empty { .. } => 1,
        Stmt::Eval { e, .. } | Stmt::Step { e, .. } | Stmt::Defer { call: e, .. } => {
            above(depth(e))
        }
        Stmt::Assign { left, right, .. } => above(deeper(exprs_depth(left), exprs_depth(right))),
        Stmt::Define { names, right, .. } => above(deeper(names_depth(names), exprs_depth(right))),
        Stmt::Return { values, .. } => above(exprs_depth(values)),
        Stmt::Break { label, .. } | Stmt::Continue { label, .. } => {
            above(name_option_depth(label))
        }
        Stmt::Inner(block) => block_depth(block),
        Stmt::If { arms, last, .. } => above(deeper(arms_depth(arms), block_option_depth(last))),
        Stmt::For {
            first,
            test,
            post,
            body,
            ..
        } => above(deeper(
            stmt_option_depth(first),
            deeper(
                option_depth(test),
                deeper(stmt_option_depth(post), block_depth(body)),
            ),
        )),
        Stmt::Range {
            left,
            over,
            body,
            ..
        } => above(deeper(left_depth(left), deeper(depth(over), block_depth(body)))),
        Stmt::Switch {
            first,
            tag,
            cases,
            ..
        } => above(deeper(
            stmt_option_depth(first),
            deeper(option_depth(tag), cases_depth(cases)),
        )),
        Stmt::Label { stmt, .. } => above(deeper(1, stmt_depth(stmt))),
    }
}

#[cycle(tree_depth)]
pub(crate) fn block_depth(block: &Block) -> u32
    ensures { result ≡ capped (depth_stmts (stmts_of block.now.stmts) + 1) }
{
    above(stmts_depth(&block.stmts))
}

#[cycle(tree_depth)]
fn block_option_depth(block: &Option<Block>) -> u32
    ensures { result ≡ capped (depth_block_option (held_block_option_of block.now)) }
{
    match block {
        None => 0,
        Some(block) => block_depth(block),
    }
}

#[cycle(tree_depth)]
fn stmts_depth(stmts: &StmtList) -> u32
    ensures { result ≡ capped (depth_stmts (stmts_of stmts.now)) }
{
    let mut deepest = 0;
    for stmt in stmts.items() {
        deepest = deeper(deepest, stmt_depth(stmt));
    }
    deepest
}

#[cycle(tree_depth)]
fn stmt_option_depth(stmt: &Option<Box<Stmt>>) -> u32
    ensures { result ≡ capped (depth_stmt_option (boxed_stmt_option_of stmt.now)) }
{
    match stmt {
        None => 0,
        Some(stmt) => stmt_depth(stmt),
    }
}

#[cycle(tree_depth)]
fn left_depth(left: &RangeLeft) -> u32
    ensures { result ≡ capped (depth_range_left (range_left_of left.now)) }
{
    match left {
        RangeLeft::Nothing => 0,
        RangeLeft::Assigns(exprs) => exprs_depth(exprs),
        RangeLeft::Defines(names) => names_depth(names),
    }
}

#[cycle(tree_depth)]
fn arm_depth(arm: &Arm) -> u32
    ensures { result ≡ capped (arm_deep arm.now) }
{
    above(deeper(
        stmt_option_depth(&arm.first),
        deeper(depth(&arm.test), block_depth(&arm.body)),
    ))
}

#[cycle(tree_depth)]
fn arms_depth(arms: &ArmList) -> u32
    ensures { result ≡ capped (depth_arms (arms_of arms.now)) }
{
    let mut deepest = 0;
    for arm in arms.items() {
        deepest = deeper(deepest, arm_depth(arm));
    }
    deepest
}

#[cycle(tree_depth)]
fn case_depth(case: &Case) -> u32
    ensures { result ≡ capped (case_deep case.now) }
{
    above(deeper(exprs_depth(&case.values), stmts_depth(&case.body)))
}

#[cycle(tree_depth)]
fn cases_depth(cases: &CaseList) -> u32
    ensures { result ≡ capped (depth_cases (cases_of cases.now)) }
{
    let mut deepest = 0;
    for case in cases.items() {
        deepest = deeper(deepest, case_depth(case));
    }
    deepest
}

#[cycle(tree_depth)]
fn const_spec_depth(spec: &ConstSpec) -> u32
    ensures { result ≡ capped (const_spec_deep spec.now) }
{
    above(deeper(
        names_depth(&spec.names),
        deeper(type_option_depth(&spec.of), exprs_depth(&spec.values)),
    ))
}

#[cycle(tree_depth)]
fn const_specs_depth(specs: &ConstSpecList) -> u32
    ensures { result ≡ capped (depth_value_specs (const_specs_of specs.now)) }
{
    let mut deepest = 0;
    for spec in specs.items() {
        deepest = deeper(deepest, const_spec_depth(spec));
    }
    deepest
}

#[cycle(tree_depth)]
fn var_spec_depth(spec: &VarSpec) -> u32
    ensures { result ≡ capped (var_spec_deep spec.now) }
{
    above(deeper(
        names_depth(&spec.names),
        deeper(type_option_depth(&spec.of), exprs_depth(&spec.values)),
    ))
}

#[cycle(tree_depth)]
fn var_specs_depth(specs: &VarSpecList) -> u32
    ensures { result ≡ capped (depth_value_specs (var_specs_of specs.now)) }
{
    let mut deepest = 0;
    for spec in specs.items() {
        deepest = deeper(deepest, var_spec_depth(spec));
    }
    deepest
}

#[cycle(tree_depth)]
fn const_decl_depth(decl: &ConstDecl) -> u32
    ensures { result ≡ capped (depth_stmt (const_decl_of decl.now)) }
{
    above(const_specs_depth(&decl.specs))
}

#[cycle(tree_depth)]
fn var_decl_depth(decl: &VarDecl) -> u32
    ensures { result ≡ capped (depth_stmt (var_decl_of decl.now)) }
{
    above(var_specs_depth(&decl.specs))
}
