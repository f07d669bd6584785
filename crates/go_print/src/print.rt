//! The public calls: a text of its own for a tree.

ghost use Rattle.std.specs.Prelude.{◌≡◌, IfOk, None, false};
ghost use Rattle.go_layout.specs.Layouts.{text_of};
ghost use Rattle.go_layout.specs.TypeLayout.{type_layout};
ghost use Rattle.go_layout.specs.TreeLayout.{operand_layout, stmts_layout};
ghost use Rattle.go_tree.specs.View.{expr_of, stmts_of, type_of};

use crate::exprs::write_operand;
use crate::stmts::write_stmts;
use crate::types::write_type;
use go_tree::{Expr, NoMemory, StmtList, Text, TypeExpr};
use std::alloc::Global;

/// The text of an expression in a place that takes operators of precedence `level` or higher
/// without parentheses (Go specification, Operator precedence: 1 to 5 of a binary operator, 6 with
/// an operator before its operand, 7 for what may be called or selected from). With `header` it
/// stands in the header of an `if`, `for` or `switch`, outside parentheses, brackets and braces
/// (Composite literals). `indent` is the blanks and tabs at the start of its first line. An error
/// exactly where memory is refused.
pub fn print_expr(
    alloc: Global,
    e: &Expr,
    indent: &[u8],
    level: u8,
    header: bool,
) -> Result<Text, NoMemory>
    ensures { IfOk result (λ text. text ≡ text_of (operand_layout indent.now level header false (expr_of e.now))) }
{
    let mut out = Vec::new(alloc);
    write_operand(&mut out, e, indent, level, header, false)?;
    Ok(Text::of(out))
}

/// The text of a type, on one line (Go specification, Types). An error where memory is refused.
pub fn print_type(alloc: Global, t: &TypeExpr) -> Result<Text, NoMemory>
    ensures { IfOk result (λ text. text ≡ text_of (type_layout (type_of t.now))) }
{
    let mut out = Vec::new(alloc);
    write_type(&mut out, t)?;
    Ok(Text::of(out))
}

/// The lines of statements (Go specification, Statements). The first stands where `indent` ends,
/// and each further one on a line of its own after `indent`; no newline follows the last. An error
/// where memory is refused.
pub fn print_stmts(alloc: Global, list: &StmtList, indent: &[u8]) -> Result<Text, NoMemory>
    ensures { IfOk result (λ text. text ≡ text_of (stmts_layout indent.now None (stmts_of list.now))) }
{
    let mut out = Vec::new(alloc);
    write_stmts(&mut out, list, indent)?;
    Ok(Text::of(out))
}
