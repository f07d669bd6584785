//! The dots after the last argument of a call.

ghost use Rattle.std.specs.Prelude.{◌≡◌, ◌++◌, OnOk, false};
ghost use Rattle.go_layout.specs.Layouts.{text_of};
ghost use Rattle.go_layout.specs.Parens.{ends_in_integer, last_ends_in_integer};
ghost use Rattle.go_layout.specs.TreeLayout.{closes, rest_layout};
ghost use Rattle.go_tree.specs.View.{expr_of, exprs_of};

use crate::parens::{LOWEST, UNARY, needs_parens, operand_parens};
use crate::parts::{write_if, write_text};
use go_tree::go_words::level_of;
use go_tree::{Expr, ExprList, NoMemory, Rest};

/// Whether `)` directly follows the arguments.
pub(crate) fn closes(rest: Rest) -> bool
    ensures { result ≡ closes rest }
{
    match rest {
        Rest::Whole => false,
        Rest::Plain | Rest::Packed | Rest::Empty => true,
    }
}

/// The dots of a call, with a blank before them where an integer literal would take them in.
pub(crate) fn write_rest(out: &mut Vec<u8>, rest: Rest, args: &ExprList) -> Result<(), NoMemory>
    ensures { OnOk result (out.new.items ≡ out.old.items ++ text_of (rest_layout rest (exprs_of args.now))) }
{
    match rest {
        Rest::Whole => {
            write_if(out, last_ends_in_integer(args), b" ")?;
            write_text(out, b"...")
        }
        Rest::Plain | Rest::Packed | Rest::Empty => Ok(()),
    }
}

fn last_ends_in_integer(args: &ExprList) -> bool
    ensures { result ≡ last_ends_in_integer false false (exprs_of args.now) }
{
    let items = args.items();
    if items.is_empty() {
        return false;
    }
    let last = &items[items.len() - 1];
    !needs_parens(LOWEST, false, false, last) && ends_in_integer(last)
}

/// Whether the last token of the expression's text is an integer literal.
fn ends_in_integer(e: &Expr) -> bool
    ensures { result ≡ ends_in_integer false false (expr_of e.now) }
{
    match e {
        Expr::IntLit { .. } => true,
        Expr::Unary { op, e, .. } => !operand_parens(*op, false, false, e) && ends_in_integer(e),
        Expr::Binary { op, right, .. } => {
            !needs_parens(level_of(*op) + 1, false, false, right) && ends_in_integer(right)
        }
        Expr::Star { e, .. } => !needs_parens(UNARY, false, false, e) && ends_in_integer(e),
        _ => false,
    }
}
