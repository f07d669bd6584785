//! Names and basic literals, what is said of expressions beside their trees, and which expressions are literals of
//! functions.

ghost use Rattle.std.specs.Prelude.{◌≡◌, IfOk};
ghost use Rattle.go_tree.specs.View.{expr_of};
ghost use Rattle.go_read.specs.Spells.{is_func_lit};
ghost use Rattle.go_expressions.specs.ExprParts.{plain_of};

use go_tree::go_words::Terminal;
use go_tree::{
    Expr, ExprList, Name, NoMemory, Rest, Span, Text, ident_expr, int_lit_expr, rune_lit_expr,
    str_lit_expr,
};
use std::alloc::Global;

/// An expression, and whether it stands without parentheses around it.
#[derive(Drop)]
pub struct Operand {
    pub e: Expr,
    pub bare: bool,
}

/// The arguments of a call.
#[derive(Drop)]
pub(crate) struct Args {
    pub(crate) list: ExprList,
    /// `Whole` where three dots stand after the last of them, `Plain` where none do.
    pub(crate) rest: Rest,
}

/// Whether the expression is a literal of a function, which stands only as the callee of a call.
pub fn is_func_lit(e: &Expr) -> bool
    ensures { is_func_lit (expr_of e.now) ≡ result }
{
    match e {
        Expr::FuncLit { .. } => true,
        _ => false,
    }
}

/// The name or the basic literal with this spelling.
pub(crate) fn plain_expr(
    alloc: Global,
    span: Span,
    terminal: Terminal,
    spelling: &[u8],
) -> Result<Expr, NoMemory>
    ensures { IfOk result (λ c. expr_of c ≡ plain_of terminal span spelling.now) }
{
    if let Terminal::Ident = terminal {
        return Ok(ident_expr(span, Name::copied(alloc, spelling)?));
    }
    let spelling = Text::copied(alloc, spelling)?;
    Ok(match terminal {
        Terminal::IntLit => int_lit_expr(span, spelling),
        Terminal::RuneLit => rune_lit_expr(span, spelling),
        _ => str_lit_expr(span, spelling),
    })
}
