//! Expressions.

ghost use Rattle.std.specs.Prelude.{◌≡◌, ◌++◌, OnOk, false};
ghost use Rattle.go_layout.specs.Layouts.{text_of};
ghost use Rattle.go_layout.specs.TreeLayout.{expr_layout, exprs_layout, key_layout, operand_layout, option_layout};
ghost use Rattle.go_layout.specs.TreeLayout.{value_layout};
ghost use Rattle.go_print.specs.Parts.{braced_layout, elem_layout, within_layout};
ghost use Rattle.go_tree.specs.View.{boxed_expr_option_of, elem_of, elems_of, expr_of, exprs_of, held_value_option_of};
ghost use Rattle.go_tree.specs.View.{value_of};

use crate::parens::{LOWEST, OPERAND, UNARY, base_parens, needs_parens, operand_parens};
use crate::parts::{write_binary, write_if, write_name, write_text};
use crate::rests::{closes, write_rest};
use crate::stmts::write_block;
use crate::types::{write_sig, write_type};
use go_tree::go_words::{level_of, unary_spelling};
use go_tree::{Elem, ElemList, Expr, ExprList, NoMemory, Value};

/// An expression with the parentheses that its place needs: a level, in a header outside brackets
/// or not, `closed` where `(`, `,` or `)` directly follows.
#[cycle(tree_text)]
pub(crate) fn write_operand(
    out: &mut Vec<u8>,
    e: &Expr,
    indent: &[u8],
    level: u8,
    header: bool,
    closed: bool,
) -> Result<(), NoMemory>
    ensures { OnOk result (out.new.items
        ≡ out.old.items ++ text_of (operand_layout indent.now level header closed (expr_of e.now))) }
{
    let parens = needs_parens(level, header, closed, e);
    write_within(out, e, indent, parens, header, closed)
}

#[cycle(tree_text)]
fn write_within(
    out: &mut Vec<u8>,
    e: &Expr,
    indent: &[u8],
    parens: bool,
    header: bool,
    closed: bool,
) -> Result<(), NoMemory>
    ensures { OnOk result (out.new.items
        ≡ out.old.items ++ text_of (within_layout indent.now parens header closed (expr_of e.now))) }
{
    if parens {
        write_text(out, b"(")?;
        write_expr(out, e, indent, false, true)?;
        write_text(out, b")")
    } else {
        write_expr(out, e, indent, header, closed)
    }
}

/// An expression without parentheses around it.
#[cycle(tree_text)]
pub(crate) fn write_expr(
    out: &mut Vec<u8>,
    e: &Expr,
    indent: &[u8],
    header: bool,
    closed: bool,
) -> Result<(), NoMemory>
    ensures { OnOk result (out.new.items
        ≡ out.old.items ++ text_of (expr_layout indent.now header closed (expr_of e.now))) }
{
    match e {
        Expr::Ident { name, .. } => write_text(out, name.items()),
        Expr::IntLit { spelling, .. }
        | Expr::RuneLit { spelling, .. }
        | Expr::StrLit { spelling, .. } => write_text(out, spelling.items()),
        Expr::Composite { of, elems, .. } => {
            write_type(out, of)?;
            write_elems(out, elems, indent)
        }
        Expr::Selector { base, name, .. } => {
            let parens = base_parens(header, base);
            write_within(out, base, indent, parens, header, false)?;
            write_text(out, b".")?;
            write_name(out, name)
        }
        Expr::Index { base, at, .. } => {
            write_operand(out, base, indent, OPERAND, header, false)?;
            write_text(out, b"[")?;
            write_operand(out, at, indent, LOWEST, false, false)?;
            write_text(out, b"]")
        }
        Expr::Slice { base, from, to, .. } => {
            write_operand(out, base, indent, OPERAND, header, false)?;
            write_text(out, b"[")?;
            write_bound(out, from, indent)?;
            write_text(out, b":")?;
            write_bound(out, to, indent)?;
            write_text(out, b"]")
        }
        Expr::Call {
            callee,
            args,
            rest,
            ..
        } => {
            write_operand(out, callee, indent, OPERAND, header, true)?;
            write_text(out, b"(")?;
            write_exprs(out, args, indent, false, closes(*rest))?;
            write_rest(out, *rest, args)?;
            write_text(out, b")")
        }
        Expr::FuncLit { sig, body, .. } => {
            write_text(out, b"func")?;
            write_sig(out, sig)?;
            write_text(out, b" ")?;
            write_block(out, body, indent)
        }
        Expr::TypeOperand { of, .. } => write_type(out, of),
        Expr::Unary { op, e, .. } => {
            write_text(out, unary_spelling(*op))?;
            let parens = operand_parens(*op, header, closed, e);
            write_within(out, e, indent, parens, header, closed)
        }
        Expr::Binary {
            op,
            left,
            right,
            ..
        } => {
            let level = level_of(*op);
            write_operand(out, left, indent, level, header, false)?;
            write_binary(out, *op)?;
            write_operand(out, right, indent, level + 1, header, closed)
        }
        Expr::Star { e, .. } => {
            write_text(out, b"*")?;
            write_operand(out, e, indent, UNARY, header, closed)
        }
    }
}

// A bound of a slice, where there is one.
#[cycle(tree_text)]
fn write_bound(out: &mut Vec<u8>, e: &Option<Box<Expr>>, indent: &[u8]) -> Result<(), NoMemory>
    ensures { OnOk result (out.new.items
        ≡ out.old.items ++ text_of (option_layout indent.now false (boxed_expr_option_of e.now))) }
{
    match e {
        None => Ok(()),
        Some(e) => write_operand(out, e, indent, LOWEST, false, false),
    }
}

/// Expressions with commas between them; `closed` says what follows the last.
#[cycle(tree_text)]
pub(crate) fn write_exprs(
    out: &mut Vec<u8>,
    exprs: &ExprList,
    indent: &[u8],
    header: bool,
    closed: bool,
) -> Result<(), NoMemory>
    ensures { OnOk result (out.new.items
        ≡ out.old.items ++ text_of (exprs_layout indent.now header closed (exprs_of exprs.now))) }
{
    let items = exprs.items();
    for (i, e) in items.iter().enumerate() {
        let more = i + 1 < items.len();
        write_operand(out, e, indent, LOWEST, header, more | closed)?;
        write_if(out, more, b", ")?;
    }
    Ok(())
}

// The braces of a composite literal with its elements.
#[cycle(tree_text)]
fn write_elems(out: &mut Vec<u8>, elems: &ElemList, indent: &[u8]) -> Result<(), NoMemory>
    ensures { OnOk result (out.new.items ≡ out.old.items ++ text_of (braced_layout indent.now (elems_of elems.now))) }
{
    let items = elems.items();
    write_text(out, b"{")?;
    for (i, elem) in items.iter().enumerate() {
        let more = i + 1 < items.len();
        write_elem(out, elem, indent, more)?;
        write_if(out, more, b", ")?;
    }
    write_text(out, b"}")
}

#[cycle(tree_text)]
fn write_elem(out: &mut Vec<u8>, elem: &Elem, indent: &[u8], closed: bool) -> Result<(), NoMemory>
    ensures { OnOk result (out.new.items
        ≡ out.old.items ++ text_of (elem_layout indent.now closed (elem_of elem.now))) }
{
    write_key(out, &elem.key, indent)?;
    write_value(out, &elem.value, indent, closed)
}

#[cycle(tree_text)]
fn write_key(out: &mut Vec<u8>, key: &Option<Value>, indent: &[u8]) -> Result<(), NoMemory>
    ensures { OnOk result (out.new.items
        ≡ out.old.items ++ text_of (key_layout indent.now (held_value_option_of key.now))) }
{
    match key {
        None => Ok(()),
        Some(key) => {
            write_value(out, key, indent, false)?;
            write_text(out, b": ")
        }
    }
}

#[cycle(tree_text)]
fn write_value(
    out: &mut Vec<u8>,
    value: &Value,
    indent: &[u8],
    closed: bool,
) -> Result<(), NoMemory>
    ensures { OnOk result (out.new.items
        ≡ out.old.items ++ text_of (value_layout indent.now closed (value_of value.now))) }
{
    match value {
        Value::Plain(e) => write_operand(out, e, indent, LOWEST, false, closed),
        Value::Braced { elems, .. } => write_elems(out, elems, indent),
    }
}
