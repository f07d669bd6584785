//! What is printed.

ghost use Rattle.std.specs.Prelude.{◌≡◌, map};
ghost use Rattle.std.specs.List.{list_all};
ghost use Rattle.std.specs.Char.{is_ascii_digit};
ghost use Rattle.go_tree.specs.Lists.{exprs_from};
ghost use Rattle.go_tree.specs.View.{expr_of};
ghost use Rattle.printing_files.specs.Operands as operands;

use go_tree::{Expr, Rest};

/// The most digits of a number.
const MAX_DIGITS: usize = 18;

fn are_digits(bytes: &[u8]) -> bool
    ensures { result ≡ list_all is_ascii_digit bytes.now }
{
    bytes.iter().all(|byte| byte.is_ascii_digit())
}

fn is_short_decimal(spelling: &[u8]) -> bool
    ensures { result ≡ operands.is_short_decimal spelling.now }
{
    match spelling.split_first() {
        None => false,
        Some((first, rest)) => {
            first.is_ascii_digit()
                && are_digits(rest)
                && rest.len() < MAX_DIGITS
                && (*first != b'0' || rest.is_empty())
        }
    }
}

fn is_name_alone(e: &Expr) -> bool
    ensures { result ≡ operands.is_name_alone (expr_of e.now) }
{
    match e {
        Expr::Ident { .. } => true,
        _ => false,
    }
}

/// Whether the expression is a name, one behind the name of a package, or a short decimal literal.
pub(crate) fn is_operand(e: &Expr) -> bool
    ensures { result ≡ operands.is_operand (expr_of e.now) }
{
    match e {
        Expr::Ident { .. } => true,
        Expr::Selector { base, .. } => is_name_alone(base),
        Expr::IntLit { spelling, .. } => is_short_decimal(spelling.items()),
        _ => false,
    }
}

fn are_operands(exprs: &[Expr]) -> bool
    ensures { result ≡ operands.are_operands (exprs_from (map expr_of exprs.now)) }
{
    for e in exprs {
        if !is_operand(e) {
            return false;
        }
    }
    true
}

fn is_println(e: &Expr) -> bool
    ensures { result ≡ operands.is_println (expr_of e.now) }
{
    match e {
        Expr::Ident { name, .. } => name.items() == b"println".as_slice(),
        _ => false,
    }
}

/// Whether the expression is a call of `println` with such expressions.
pub(crate) fn is_print(e: &Expr) -> bool
    ensures { result ≡ operands.is_print (expr_of e.now) }
{
    match e {
        Expr::Call {
            callee,
            args,
            rest: Rest::Plain,
            ..
        } => is_println(callee) && are_operands(args.items()),
        _ => false,
    }
}
