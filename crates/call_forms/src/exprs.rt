//! Expressions as they are written at a use. Operands are put in their boxes at once: a step that drops an expression
//! which stands in no box or list is dear to check.

ghost use Rattle.std.specs.Prelude.{◌≡◌, IfOk};
ghost use Rattle.go_tree.specs.View.{expr_of, exprs_of, boxed_expr_option_of, plain_expr_option_of, value_of, elem_of};
ghost use Rattle.go_tree.specs.View.{elems_of};
ghost use Rattle.call_forms.specs.Written.{told, qualified, written_ident, written_expr, written_exprs};
ghost use Rattle.call_forms.specs.Written.{written_expr_option, written_elems, written_elem, written_value};

use crate::qualifiers::There;
use crate::stmts::written_block;
use crate::types::{copied_text, placed_name, written_name, written_sig, written_type};
use go_tree::{
    Elem, ElemList, Expr, ExprList, Name, NoMemory, Span, Value, binary_expr, call_expr,
    composite_expr, func_lit_expr, ident_expr, index_expr, int_lit_expr, rune_lit_expr,
    selector_expr, slice_expr, star_expr, str_lit_expr, type_operand_expr, unary_expr,
};
use std::alloc::Global;

/// A name behind that of a package (Go specification, Qualified identifiers).
pub(crate) fn qualified(
    alloc: Global,
    there: &There,
    before: &Name,
    name: &Name,
) -> Result<Expr, NoMemory>
    ensures { IfOk result (λ c. expr_of c ≡ qualified there.now before.now name.now) }
{
    let base = Name::copied(alloc, before.items())?;
    let base = Box::new(alloc, ident_expr(there.span, base))?;
    Ok(selector_expr(there.span, base, placed_name(alloc, there, name)?))
}

/// A name that stands at the span, behind that of a package where one is told.
pub(crate) fn written_ident(
    alloc: Global,
    there: &There,
    span: Span,
    name: &Name,
) -> Result<Expr, NoMemory>
    ensures { IfOk result (λ c. expr_of c ≡ written_ident there.now (told there.now span) name.now) }
{
    match there.qualifiers.at(span) {
        None => Ok(ident_expr(there.span, Name::copied(alloc, name.items())?)),
        Some(package) => qualified(alloc, there, package, name),
    }
}

/// An expression as it is written at the use (Go specification, Expressions; Qualified identifiers). An error where
/// memory is refused.
#[cycle(written_tree)]
pub fn written_expr(alloc: Global, there: &There, e: &Expr) -> Result<Expr, NoMemory>
    ensures { IfOk result (λ c. expr_of c ≡ written_expr there.now (expr_of e.now)) }
{
    match e {
        Expr::Ident { span, name } => written_ident(alloc, there, *span, name),
        Expr::IntLit { spelling, .. } => Ok(int_lit_expr(
            there.span,
            copied_text(alloc, spelling)?,
        )),
        Expr::RuneLit { spelling, .. } => Ok(rune_lit_expr(
            there.span,
            copied_text(alloc, spelling)?,
        )),
        Expr::StrLit { spelling, .. } => Ok(str_lit_expr(
            there.span,
            copied_text(alloc, spelling)?,
        )),
        Expr::Composite { of, elems, .. } => {
            let elems = written_elems(alloc, there, elems)?;
            Ok(composite_expr(there.span, written_type(alloc, there, of)?, elems))
        }
        Expr::Selector { span, base, name } => match there.qualifiers.at(*span) {
            Some(package) => qualified(alloc, there, package, &name.name),
            None => {
                let base = boxed_expr(alloc, there, base)?;
                Ok(selector_expr(there.span, base, written_name(alloc, there, name)?))
            }
        },
        Expr::Index { base, at, .. } => {
            let base = boxed_expr(alloc, there, base)?;
            Ok(index_expr(there.span, base, boxed_expr(alloc, there, at)?))
        }
        Expr::Slice { base, from, to, .. } => {
            let base = boxed_expr(alloc, there, base)?;
            let from = boxed_option(alloc, there, from)?;
            Ok(slice_expr(there.span, base, from, boxed_option(alloc, there, to)?))
        }
        Expr::Call {
            callee,
            args,
            rest,
            ..
        } => {
            let callee = boxed_expr(alloc, there, callee)?;
            Ok(call_expr(
                there.span,
                callee,
                written_exprs(alloc, there, args)?,
                *rest,
            ))
        }
        Expr::FuncLit { sig, body, .. } => {
            let body = written_block(alloc, there, body)?;
            Ok(func_lit_expr(there.span, written_sig(alloc, there, sig)?, body))
        }
        Expr::TypeOperand { of, .. } => Ok(type_operand_expr(
            there.span,
            written_type(alloc, there, of)?,
        )),
        Expr::Unary { op, e, .. } => Ok(unary_expr(there.span, *op, boxed_expr(alloc, there, e)?)),
        Expr::Binary {
            op,
            left,
            right,
            ..
        } => {
            let left = boxed_expr(alloc, there, left)?;
            Ok(binary_expr(there.span, *op, left, boxed_expr(alloc, there, right)?))
        }
        Expr::Star { e, .. } => Ok(star_expr(there.span, boxed_expr(alloc, there, e)?)),
    }
}

#[cycle(written_tree)]
fn boxed_expr(alloc: Global, there: &There, e: &Box<Expr>) -> Result<Box<Expr>, NoMemory>
    ensures { IfOk result (λ c. expr_of c.value ≡ written_expr there.now (expr_of e.now.value)) }
{
    Ok(Box::new(alloc, written_expr(alloc, there, e)?)?)
}

#[cycle(written_tree)]
fn boxed_option(
    alloc: Global,
    there: &There,
    e: &Option<Box<Expr>>,
) -> Result<Option<Box<Expr>>, NoMemory>
    ensures { IfOk result (λ c. boxed_expr_option_of c ≡ written_expr_option there.now (boxed_expr_option_of e.now)) }
{
    match e {
        None => Ok(None),
        Some(e) => Ok(Some(Box::new(alloc, written_expr(alloc, there, e)?)?)),
    }
}

#[cycle(written_tree)]
pub(crate) fn written_expr_option(
    alloc: Global,
    there: &There,
    e: &Option<Expr>,
) -> Result<Option<Expr>, NoMemory>
    ensures { IfOk result (λ c. plain_expr_option_of c ≡ written_expr_option there.now (plain_expr_option_of e.now)) }
{
    match e {
        None => Ok(None),
        Some(e) => Ok(Some(written_expr(alloc, there, e)?)),
    }
}

#[cycle(written_tree)]
pub(crate) fn written_exprs(
    alloc: Global,
    there: &There,
    exprs: &ExprList,
) -> Result<ExprList, NoMemory>
    ensures { IfOk result (λ c. exprs_of c ≡ written_exprs there.now (exprs_of exprs.now)) }
{
    let mut copies = Vec::new(alloc);
    for expr in exprs.items() {
        copies.push(written_expr(alloc, there, expr)?)?;
    }
    Ok(ExprList::of(copies))
}

#[cycle(written_tree)]
fn written_elems(alloc: Global, there: &There, elems: &ElemList) -> Result<ElemList, NoMemory>
    ensures { IfOk result (λ c. elems_of c ≡ written_elems there.now (elems_of elems.now)) }
{
    let mut copies = Vec::new(alloc);
    for elem in elems.items() {
        copies.push(written_elem(alloc, there, elem)?)?;
    }
    Ok(ElemList::of(copies))
}

#[cycle(written_tree)]
fn written_elem(alloc: Global, there: &There, elem: &Elem) -> Result<Elem, NoMemory>
    ensures { IfOk result (λ c. elem_of c ≡ written_elem there.now (elem_of elem.now)) }
{
    match &elem.key {
        None => {
            let value = written_value(alloc, there, &elem.value)?;
            Ok(Elem::new(there.span, None, value))
        }
        Some(key) => {
            let key = Box::new(alloc, written_value(alloc, there, key)?)?;
            let value = written_value(alloc, there, &elem.value)?;
            Ok(Elem::new(there.span, Some(Box::into_inner(key)), value))
        }
    }
}

#[cycle(written_tree)]
fn written_value(alloc: Global, there: &There, value: &Value) -> Result<Value, NoMemory>
    ensures { IfOk result (λ c. value_of c ≡ written_value there.now (value_of value.now)) }
{
    match value {
        Value::Plain(e) => Ok(Value::Plain(written_expr(alloc, there, e)?)),
        Value::Braced { elems, .. } => Ok(Value::Braced {
            span: there.span,
            elems: written_elems(alloc, there, elems)?,
        }),
    }
}
