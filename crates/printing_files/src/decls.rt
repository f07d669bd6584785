//! Declarations of constants and of functions that print them.

ghost use Rattle.std.specs.Prelude.{◌≡◌, map};
ghost use Rattle.go_tree.specs.Lists.{exprs_from, specs_from, stmts_from};
ghost use Rattle.go_tree.specs.View.{const_spec_of, expr_of, name_at_of, stmt_of};
ghost use Rattle.go_tree.specs.FileView.{decl_of, func_of};
ghost use Rattle.printing_files.specs.Decls as decls;

use crate::operands::{is_operand, is_print};
use go_tree::{ConstSpec, Decl, Expr, FuncDecl, NameAt, Stmt};

fn is_blank(name: &NameAt) -> bool
    ensures { result ≡ decls.is_blank name.now.name }
{
    name.name.items() == b"_".as_slice()
}

/// Whether there is one name, and that isn't `_`.
fn is_one_name(names: &[NameAt]) -> bool
    ensures { result ≡ decls.is_one_name (map name_at_of names.now) }
{
    match names.split_first() {
        None => false,
        Some((name, rest)) => rest.is_empty() && !is_blank(name),
    }
}

fn are_none(values: &[Expr]) -> bool
    ensures { result ≡ decls.are_none (exprs_from (map expr_of values.now)) }
{
    match values.split_first() {
        None => true,
        Some(_) => false,
    }
}

/// Whether there is one expression, and that is an operand.
fn is_one_operand(values: &[Expr]) -> bool
    ensures { result ≡ decls.is_one_operand (exprs_from (map expr_of values.now)) }
{
    match values.split_first() {
        None => false,
        Some((value, rest)) => are_none(rest) && is_operand(value),
    }
}

fn is_constant(spec: &ConstSpec) -> bool
    ensures { result ≡ decls.is_constant (const_spec_of spec.now) }
{
    match spec.of {
        Some(_) => false,
        None => is_one_name(spec.names.items()) && is_one_operand(spec.values.items()),
    }
}

fn are_constants(specs: &[ConstSpec]) -> bool
    ensures { result ≡ decls.are_constants (specs_from (map const_spec_of specs.now)) }
{
    for spec in specs {
        if !is_constant(spec) {
            return false;
        }
    }
    true
}

fn is_printing(stmt: &Stmt) -> bool
    ensures { result ≡ decls.is_printing (stmt_of stmt.now) }
{
    match stmt {
        Stmt::Eval { e, .. } => is_print(e),
        _ => false,
    }
}

fn are_printing(stmts: &[Stmt]) -> bool
    ensures { result ≡ decls.are_printing (stmts_from (map stmt_of stmts.now)) }
{
    for stmt in stmts {
        if !is_printing(stmt) {
            return false;
        }
    }
    true
}

fn is_printer(func: &FuncDecl) -> bool
    ensures { result ≡ decls.is_printer (func_of func.now) }
{
    match func.receiver {
        Some(_) => false,
        None => {
            func.sig.params.items().is_empty()
                && func.sig.results.items().is_empty()
                && are_printing(func.body.stmts.items())
        }
    }
}

/// Whether the declaration is of constants without a type, each of one name other than `_` with an operand, or of a
/// function without receiver, parameters and results whose statements print operands.
pub(crate) fn is_plain(decl: &Decl) -> bool
    ensures { result ≡ decls.is_plain (decl_of decl.now) }
{
    match decl {
        Decl::Const(decl) => are_constants(decl.specs.items()),
        Decl::Func(func) => is_printer(func),
        _ => false,
    }
}
