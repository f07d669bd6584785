//! Statements.

ghost use Rattle.std.specs.Prelude.{◌≡◌, ◌++◌, OnOk, None, true};
ghost use Rattle.go_layout.specs.Layouts.{text_of};
ghost use Rattle.go_layout.specs.TreeLayout.{arms_layout, block_layout, cases_layout, first_layout, last_layout};
ghost use Rattle.go_layout.specs.TreeLayout.{left_layout, option_layout, part_layout, post_layout, stmt_layout};
ghost use Rattle.go_layout.specs.TreeLayout.{stmts_layout, test_layout};
ghost use Rattle.go_print.specs.Parts.{arm_layout, clause_layout, has_clause};
ghost use Rattle.go_tree.specs.View.{arm_of, arms_of, boxed_stmt_option_of, case_of, cases_of, held_block_option_of};
ghost use Rattle.go_tree.specs.View.{plain_expr_option_of, range_left_of, stmt_of, stmts_of};

use crate::decls::{write_const_decl, write_var_decl};
use crate::exprs::{write_expr, write_exprs, write_operand};
use crate::parens::LOWEST;
use crate::parts::{
    deeper, step_spelling, write_assign, write_if, write_label, write_line, write_line_if,
    write_name, write_text,
};
use crate::starts::{has_stmts, write_case_word, write_clauses_start, write_gap_before};
use crate::types::write_names;
use go_tree::{Arm, ArmList, Block, Case, CaseList, Expr, NoMemory, RangeLeft, Stmt, StmtList};

/// Statements, each on a line of its own; no newline after the last.
#[cycle(tree_text)]
pub(crate) fn write_stmts(
    out: &mut Vec<u8>,
    stmts: &StmtList,
    indent: &[u8],
) -> Result<(), NoMemory>
    ensures { OnOk result (out.new.items
        ≡ out.old.items ++ text_of (stmts_layout indent.now None (stmts_of stmts.now))) }
{
    let items = stmts.items();
    for (i, stmt) in items.iter().enumerate() {
        write_stmt(out, stmt, indent, false)?;
        write_line_if(out, i + 1 < items.len(), indent)?;
    }
    Ok(())
}

/// A block: `{}`, or its statements one tab deeper than `indent`.
#[cycle(tree_text)]
pub(crate) fn write_block(out: &mut Vec<u8>, block: &Block, indent: &[u8]) -> Result<(), NoMemory>
    ensures { OnOk result (out.new.items
        ≡ out.old.items ++ text_of (block_layout indent.now (stmts_of block.now.stmts))) }
{
    let tabs = deeper(out, indent)?;
    let inner = tabs.as_slice();
    let lines = has_stmts(&block.stmts);
    write_text(out, b"{")?;
    write_line_if(out, lines, inner)?;
    write_stmts(out, &block.stmts, inner)?;
    write_line_if(out, lines, indent)?;
    write_text(out, b"}")
}

#[cycle(tree_text)]
fn write_stmt(out: &mut Vec<u8>, s: &Stmt, indent: &[u8], header: bool) -> Result<(), NoMemory>
    ensures { OnOk result (out.new.items ≡ out.old.items ++ text_of (stmt_layout indent.now header (stmt_of s.now))) }
{
    match s {
        Stmt::Const(decl) => write_const_decl(out, decl, indent),
        Stmt::Var(decl) => write_var_decl(out, decl, indent),
        Stmt::Empty { .. } => write_text(out, b";"),
        Stmt::Eval { e, .. } => write_operand(out, e, indent, LOWEST, header, false),
        Stmt::Step { e, up, .. } => {
            write_operand(out, e, indent, LOWEST, header, false)?;
            write_text(out, step_spelling(*up))
        }
        Stmt::Assign {
            left,
            op,
            right,
            ..
        } => {
            write_exprs(out, left, indent, header, false)?;
            write_assign(out, *op)?;
            write_exprs(out, right, indent, header, false)
        }
        Stmt::Define { names, right, .. } => {
            write_names(out, names)?;
            write_text(out, b" := ")?;
            write_exprs(out, right, indent, header, false)
        }
        Stmt::Return { values, .. } => {
            write_text(out, b"return")?;
            write_gap_before(out, values)?;
            write_exprs(out, values, indent, false, false)
        }
        Stmt::Break { label, .. } => {
            write_text(out, b"break")?;
            write_label(out, label)
        }
        Stmt::Continue { label, .. } => {
            write_text(out, b"continue")?;
            write_label(out, label)
        }
        Stmt::Inner(block) => write_block(out, block, indent),
        Stmt::If { arms, last, .. } => {
            write_arms(out, arms, indent)?;
            write_last(out, last, indent)
        }
        Stmt::For {
            first,
            test,
            post,
            body,
            ..
        } => {
            write_text(out, b"for ")?;
            if has_clause(first, post) {
                write_part(out, first, indent)?;
                write_text(out, b"; ")?;
                write_condition(out, test, indent)?;
                write_text(out, b"; ")?;
                write_post(out, post, indent)?;
                write_block(out, body, indent)
            } else {
                write_test(out, test, indent)?;
                write_block(out, body, indent)
            }
        }
        Stmt::Range {
            left,
            over,
            body,
            ..
        } => {
            write_text(out, b"for ")?;
            write_left(out, left, indent)?;
            write_text(out, b"range ")?;
            write_operand(out, over, indent, LOWEST, true, false)?;
            write_text(out, b" ")?;
            write_block(out, body, indent)
        }
        Stmt::Switch {
            first,
            tag,
            cases,
            ..
        } => {
            write_text(out, b"switch ")?;
            write_first(out, first, indent)?;
            write_test(out, tag, indent)?;
            write_text(out, b"{")?;
            write_clauses_start(out, cases, indent)?;
            write_cases(out, cases, indent)?;
            write_text(out, b"}")
        }
        Stmt::Defer { call, .. } => {
            write_text(out, b"defer ")?;
            write_expr(out, call, indent, false, false)
        }
        Stmt::Label { name, stmt, .. } => {
            write_name(out, name)?;
            write_text(out, b":")?;
            write_line(out, indent)?;
            write_stmt(out, stmt, indent, false)
        }
    }
}

fn has_clause(first: &Option<Box<Stmt>>, post: &Option<Box<Stmt>>) -> bool
    ensures { result ≡ has_clause (boxed_stmt_option_of first.now) (boxed_stmt_option_of post.now) }
{
    match (first, post) {
        (None, None) => false,
        _ => true,
    }
}

// A statement before a semicolon of a header, where there is one.
#[cycle(tree_text)]
fn write_part(out: &mut Vec<u8>, s: &Option<Box<Stmt>>, indent: &[u8]) -> Result<(), NoMemory>
    ensures { OnOk result (out.new.items
        ≡ out.old.items ++ text_of (part_layout indent.now (boxed_stmt_option_of s.now))) }
{
    match s {
        None => Ok(()),
        Some(s) => write_stmt(out, s, indent, true),
    }
}

// A header's first statement with its semicolon, where there is one.
#[cycle(tree_text)]
fn write_first(out: &mut Vec<u8>, s: &Option<Box<Stmt>>, indent: &[u8]) -> Result<(), NoMemory>
    ensures { OnOk result (out.new.items
        ≡ out.old.items ++ text_of (first_layout indent.now (boxed_stmt_option_of s.now))) }
{
    match s {
        None => Ok(()),
        Some(s) => {
            write_stmt(out, s, indent, true)?;
            write_text(out, b"; ")
        }
    }
}

// The statement after the condition of a `for`, where there is one.
#[cycle(tree_text)]
fn write_post(out: &mut Vec<u8>, s: &Option<Box<Stmt>>, indent: &[u8]) -> Result<(), NoMemory>
    ensures { OnOk result (out.new.items
        ≡ out.old.items ++ text_of (post_layout indent.now (boxed_stmt_option_of s.now))) }
{
    match s {
        None => Ok(()),
        Some(s) => {
            write_stmt(out, s, indent, true)?;
            write_text(out, b" ")
        }
    }
}

// A condition between semicolons, where there is one.
#[cycle(tree_text)]
fn write_condition(out: &mut Vec<u8>, e: &Option<Expr>, indent: &[u8]) -> Result<(), NoMemory>
    ensures { OnOk result (out.new.items
        ≡ out.old.items ++ text_of (option_layout indent.now true (plain_expr_option_of e.now))) }
{
    match e {
        None => Ok(()),
        Some(e) => write_operand(out, e, indent, LOWEST, true, false),
    }
}

// A condition or a tag before a brace, where there is one.
#[cycle(tree_text)]
fn write_test(out: &mut Vec<u8>, e: &Option<Expr>, indent: &[u8]) -> Result<(), NoMemory>
    ensures { OnOk result (out.new.items
        ≡ out.old.items ++ text_of (test_layout indent.now (plain_expr_option_of e.now))) }
{
    match e {
        None => Ok(()),
        Some(e) => {
            write_operand(out, e, indent, LOWEST, true, false)?;
            write_text(out, b" ")
        }
    }
}

#[cycle(tree_text)]
fn write_arms(out: &mut Vec<u8>, arms: &ArmList, indent: &[u8]) -> Result<(), NoMemory>
    ensures { OnOk result (out.new.items ≡ out.old.items ++ text_of (arms_layout indent.now (arms_of arms.now))) }
{
    let items = arms.items();
    for (i, arm) in items.iter().enumerate() {
        write_arm(out, arm, indent)?;
        write_if(out, i + 1 < items.len(), b" else ")?;
    }
    Ok(())
}

#[cycle(tree_text)]
fn write_arm(out: &mut Vec<u8>, arm: &Arm, indent: &[u8]) -> Result<(), NoMemory>
    ensures { OnOk result (out.new.items ≡ out.old.items ++ text_of (arm_layout indent.now (arm_of arm.now))) }
{
    write_text(out, b"if ")?;
    write_first(out, &arm.first, indent)?;
    write_operand(out, &arm.test, indent, LOWEST, true, false)?;
    write_text(out, b" ")?;
    write_block(out, &arm.body, indent)
}

// The block after the last `else`, where there is one.
#[cycle(tree_text)]
fn write_last(out: &mut Vec<u8>, last: &Option<Block>, indent: &[u8]) -> Result<(), NoMemory>
    ensures { OnOk result (out.new.items
        ≡ out.old.items ++ text_of (last_layout indent.now (held_block_option_of last.now))) }
{
    match last {
        None => Ok(()),
        Some(block) => {
            write_text(out, b" else ")?;
            write_block(out, block, indent)
        }
    }
}

#[cycle(tree_text)]
fn write_left(out: &mut Vec<u8>, left: &RangeLeft, indent: &[u8]) -> Result<(), NoMemory>
    ensures { OnOk result (out.new.items ≡ out.old.items ++ text_of (left_layout indent.now (range_left_of left.now))) }
{
    match left {
        RangeLeft::Nothing => Ok(()),
        RangeLeft::Assigns(exprs) => {
            write_exprs(out, exprs, indent, true, false)?;
            write_text(out, b" = ")
        }
        RangeLeft::Defines(names) => {
            write_names(out, names)?;
            write_text(out, b" := ")
        }
    }
}

#[cycle(tree_text)]
fn write_cases(out: &mut Vec<u8>, cases: &CaseList, indent: &[u8]) -> Result<(), NoMemory>
    ensures { OnOk result (out.new.items ≡ out.old.items ++ text_of (cases_layout indent.now (cases_of cases.now))) }
{
    for case in cases.items() {
        write_case(out, case, indent)?;
    }
    Ok(())
}

// A clause of a `switch`, and the newline after it.
#[cycle(tree_text)]
fn write_case(out: &mut Vec<u8>, case: &Case, indent: &[u8]) -> Result<(), NoMemory>
    ensures { OnOk result (out.new.items ≡ out.old.items ++ text_of (clause_layout indent.now (case_of case.now))) }
{
    let tabs = deeper(out, indent)?;
    let inner = tabs.as_slice();
    let lines = has_stmts(&case.body);
    write_case_word(out, &case.values)?;
    write_exprs(out, &case.values, indent, false, false)?;
    write_text(out, b":")?;
    write_line_if(out, lines, inner)?;
    write_stmts(out, &case.body, inner)?;
    write_line(out, indent)
}
