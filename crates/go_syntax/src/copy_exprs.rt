//! Copies of expressions. Operands are put in their boxes at once: a step that drops an expression which
//! stands in no box or list is dear to check.

ghost use Rattle.std.specs.Prelude.{◌≡◌, IfOk};
ghost use Rattle.go_tree.specs.View.{expr_of, exprs_of, boxed_expr_option_of, plain_expr_option_of, value_of, elem_of};
ghost use Rattle.go_tree.specs.View.{elems_of};

use crate::copy_stmts::copy_block;
use crate::copy_types::{copy_name, copy_name_at, copy_sig, copy_text, copy_type};
use go_tree::{
    Elem, ElemList, Expr, ExprList, NoMemory, Value, binary_expr, call_expr, composite_expr,
    func_lit_expr, ident_expr, index_expr, int_lit_expr, rune_lit_expr, selector_expr, slice_expr,
    star_expr, str_lit_expr, type_operand_expr, unary_expr,
};
use std::alloc::Global;

/// A copy of an expression, spans included; an error where memory is refused.
#[cycle(copy_tree)]
pub fn copy_expr(alloc: Global, e: &Expr) -> Result<Expr, NoMemory>
    ensures { IfOk result (λ c. expr_of c ≡ expr_of e.now) }
{
    match e {
        Expr::Ident { span, name } => Ok(ident_expr(*span, copy_name(alloc, name)?)),
        Expr::IntLit { span, spelling } => Ok(int_lit_expr(*span, copy_text(alloc, spelling)?)),
        Expr::RuneLit { span, spelling } => Ok(rune_lit_expr(*span, copy_text(alloc, spelling)?)),
        Expr::StrLit { span, spelling } => Ok(str_lit_expr(*span, copy_text(alloc, spelling)?)),
        Expr::Composite { span, of, elems } => {
            let elems = copy_elems(alloc, elems)?;
            Ok(composite_expr(*span, copy_type(alloc, of)?, elems))
        }
        Expr::Selector { span, base, name } => {
            let base = copy_boxed_expr(alloc, base)?;
            Ok(selector_expr(*span, base, copy_name_at(alloc, name)?))
        }
        Expr::Index { span, base, at } => {
            let base = copy_boxed_expr(alloc, base)?;
            Ok(index_expr(*span, base, copy_boxed_expr(alloc, at)?))
        }
        Expr::Slice {
            span,
            base,
            from,
            to,
        } => {
            let base = copy_boxed_expr(alloc, base)?;
            let from = copy_boxed_expr_option(alloc, from)?;
            Ok(slice_expr(*span, base, from, copy_boxed_expr_option(alloc, to)?))
        }
        Expr::Call {
            span,
            callee,
            args,
            rest,
        } => {
            let callee = copy_boxed_expr(alloc, callee)?;
            Ok(call_expr(*span, callee, copy_exprs(alloc, args)?, *rest))
        }
        Expr::FuncLit { span, sig, body } => {
            let body = copy_block(alloc, body)?;
            Ok(func_lit_expr(*span, copy_sig(alloc, sig)?, body))
        }
        Expr::TypeOperand { span, of } => Ok(type_operand_expr(*span, copy_type(alloc, of)?)),
        Expr::Unary { span, op, e } => Ok(unary_expr(*span, *op, copy_boxed_expr(alloc, e)?)),
        Expr::Binary {
            span,
            op,
            left,
            right,
        } => {
            let left = copy_boxed_expr(alloc, left)?;
            Ok(binary_expr(*span, *op, left, copy_boxed_expr(alloc, right)?))
        }
        Expr::Star { span, e } => Ok(star_expr(*span, copy_boxed_expr(alloc, e)?)),
    }
}

#[cycle(copy_tree)]
fn copy_boxed_expr(alloc: Global, e: &Box<Expr>) -> Result<Box<Expr>, NoMemory>
    ensures { IfOk result (λ c. expr_of c.value ≡ expr_of e.now.value) }
{
    Ok(Box::new(alloc, copy_expr(alloc, e)?)?)
}

#[cycle(copy_tree)]
fn copy_boxed_expr_option(
    alloc: Global,
    e: &Option<Box<Expr>>,
) -> Result<Option<Box<Expr>>, NoMemory>
    ensures { IfOk result (λ c. boxed_expr_option_of c ≡ boxed_expr_option_of e.now) }
{
    match e {
        None => Ok(None),
        Some(e) => Ok(Some(Box::new(alloc, copy_expr(alloc, e)?)?)),
    }
}

#[cycle(copy_tree)]
pub(crate) fn copy_expr_option(alloc: Global, e: &Option<Expr>) -> Result<Option<Expr>, NoMemory>
    ensures { IfOk result (λ c. plain_expr_option_of c ≡ plain_expr_option_of e.now) }
{
    match e {
        None => Ok(None),
        Some(e) => Ok(Some(copy_expr(alloc, e)?)),
    }
}

#[cycle(copy_tree)]
pub(crate) fn copy_exprs(alloc: Global, exprs: &ExprList) -> Result<ExprList, NoMemory>
    ensures { IfOk result (λ c. exprs_of c ≡ exprs_of exprs.now) }
{
    let mut copies = Vec::new(alloc);
    for expr in exprs.items() {
        copies.push(copy_expr(alloc, expr)?)?;
    }
    Ok(ExprList::of(copies))
}

#[cycle(copy_tree)]
fn copy_elems(alloc: Global, elems: &ElemList) -> Result<ElemList, NoMemory>
    ensures { IfOk result (λ c. elems_of c ≡ elems_of elems.now) }
{
    let mut copies = Vec::new(alloc);
    for elem in elems.items() {
        copies.push(copy_elem(alloc, elem)?)?;
    }
    Ok(ElemList::of(copies))
}

#[cycle(copy_tree)]
fn copy_elem(alloc: Global, elem: &Elem) -> Result<Elem, NoMemory>
    ensures { IfOk result (λ c. elem_of c ≡ elem_of elem.now) }
{
    match &elem.key {
        None => {
            let value = copy_value(alloc, &elem.value)?;
            Ok(Elem::new(elem.span, None, value))
        }
        Some(key) => {
            let key = Box::new(alloc, copy_value(alloc, key)?)?;
            let value = copy_value(alloc, &elem.value)?;
            Ok(Elem::new(elem.span, Some(Box::into_inner(key)), value))
        }
    }
}

#[cycle(copy_tree)]
fn copy_value(alloc: Global, value: &Value) -> Result<Value, NoMemory>
    ensures { IfOk result (λ c. value_of c ≡ value_of value.now) }
{
    match value {
        Value::Plain(e) => Ok(Value::Plain(copy_expr(alloc, e)?)),
        Value::Braced { span, elems } => Ok(Value::Braced {
            span: *span,
            elems: copy_elems(alloc, elems)?,
        }),
    }
}
