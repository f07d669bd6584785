//! Flags of the parts of expressions.

ghost use Rattle.std.specs.Prelude.{◌≡◌, OnOk, if◌then◌else◌};
ghost use Rattle.go_tree.specs.View.{expr_of, exprs_of, boxed_expr_option_of, plain_expr_option_of, value_of};
ghost use Rattle.go_tree.specs.View.{held_value_option_of, elems_of};
ghost use Rattle.repeated_parts.specs.Flags.{flags_expr, flags_exprs, flags_expr_option, flags_value};
ghost use Rattle.repeated_parts.specs.Flags.{flags_key, flags_elems, put_field, put_flag};
ghost use Rattle.repeated_parts.specs.LiteralTypes.Literals.{names_fields};
ghost use Rattle.repeated_parts.specs.LiteralTypes.Views.{known_of, numbers_of};

use crate::groups::{put_field, put_flag};
use crate::literal_types::{
    KnownType, TypeScopes, before_braces, in_elements, in_keys, names_fields,
};
use crate::stmts::stmts_flags;
use crate::types::{sig_flags, type_flags};
use go_tree::{ElemList, Expr, ExprList, NoMemory, Value};

#[cycle(tree_flags)]
pub(crate) fn expr_flags(
    scopes: &TypeScopes,
    e: &Expr,
    repeated: bool,
    flags: &mut Vec<Option<bool>>,
) -> Result<(), NoMemory>
    ensures { OnOk result (flags.new.items
        ≡ flags_expr (numbers_of scopes.now) repeated (expr_of e.now) flags.old.items) }
{
    match e {
        Expr::Ident { .. } => put_flag(repeated, flags),
        Expr::IntLit { .. } | Expr::RuneLit { .. } | Expr::StrLit { .. } => Ok(()),
        Expr::Composite { of, elems, .. } => {
            type_flags(of, repeated, flags)?;
            elems_flags(scopes, elems, before_braces(scopes, of), repeated, flags)
        }
        Expr::Selector { base, .. } => {
            expr_flags(scopes, base, repeated, flags)?;
            put_flag(repeated, flags)
        }
        Expr::Index { base, at, .. } => {
            expr_flags(scopes, base, repeated, flags)?;
            expr_flags(scopes, at, repeated, flags)
        }
        Expr::Slice { base, from, to, .. } => {
            expr_flags(scopes, base, repeated, flags)?;
            boxed_option_flags(scopes, from, repeated, flags)?;
            boxed_option_flags(scopes, to, repeated, flags)
        }
        Expr::Call { callee, args, .. } => {
            expr_flags(scopes, callee, repeated, flags)?;
            exprs_flags(scopes, args, repeated, flags)?;
            put_flag(repeated, flags)
        }
        Expr::FuncLit { sig, body, .. } => {
            sig_flags(sig, repeated, flags)?;
            stmts_flags(scopes, &body.stmts, repeated, flags)
        }
        Expr::TypeOperand { of, .. } => type_flags(of, repeated, flags),
        Expr::Unary { e, .. } | Expr::Star { e, .. } => expr_flags(scopes, e, repeated, flags),
        Expr::Binary { left, right, .. } => {
            expr_flags(scopes, left, repeated, flags)?;
            expr_flags(scopes, right, repeated, flags)
        }
    }
}

#[cycle(tree_flags)]
fn boxed_option_flags(
    scopes: &TypeScopes,
    e: &Option<Box<Expr>>,
    repeated: bool,
    flags: &mut Vec<Option<bool>>,
) -> Result<(), NoMemory>
    ensures { OnOk result (flags.new.items
        ≡ flags_expr_option (numbers_of scopes.now) repeated (boxed_expr_option_of e.now) flags.old.items) }
{
    match e {
        None => Ok(()),
        Some(e) => expr_flags(scopes, e, repeated, flags),
    }
}

#[cycle(tree_flags)]
pub(crate) fn option_flags(
    scopes: &TypeScopes,
    e: &Option<Expr>,
    repeated: bool,
    flags: &mut Vec<Option<bool>>,
) -> Result<(), NoMemory>
    ensures { OnOk result (flags.new.items
        ≡ flags_expr_option (numbers_of scopes.now) repeated (plain_expr_option_of e.now) flags.old.items) }
{
    match e {
        None => Ok(()),
        Some(e) => expr_flags(scopes, e, repeated, flags),
    }
}

#[cycle(tree_flags)]
pub(crate) fn exprs_flags(
    scopes: &TypeScopes,
    exprs: &ExprList,
    repeated: bool,
    flags: &mut Vec<Option<bool>>,
) -> Result<(), NoMemory>
    ensures { OnOk result (flags.new.items
        ≡ flags_exprs (numbers_of scopes.now) repeated (exprs_of exprs.now) flags.old.items) }
{
    for expr in exprs.items() {
        expr_flags(scopes, expr, repeated, flags)?;
    }
    Ok(())
}

/// The elements of a literal of whose type this is known.
#[cycle(tree_flags)]
fn elems_flags(
    scopes: &TypeScopes,
    elems: &ElemList,
    of: KnownType,
    repeated: bool,
    flags: &mut Vec<Option<bool>>,
) -> Result<(), NoMemory>
    ensures { OnOk result (flags.new.items
        ≡ flags_elems (numbers_of scopes.now) (known_of of.entry) repeated (elems_of elems.now) flags.old.items) }
{
    for elem in elems.items() {
        key_flags(scopes, &elem.key, of, repeated, flags)?;
        value_flags(
            scopes,
            &elem.value,
            in_elements(scopes, of),
            repeated,
            flags,
        )?;
    }
    Ok(())
}

/// A name that is a key of a literal of whose type this is known.
fn name_flags(
    scopes: &TypeScopes,
    of: KnownType,
    repeated: bool,
    flags: &mut Vec<Option<bool>>,
) -> Result<(), NoMemory>
    ensures { OnOk result (flags.new.items ≡ (if names_fields (numbers_of scopes.now) (known_of of.entry)
        then put_field flags.old.items else put_flag repeated flags.old.items)) }
{
    if names_fields(scopes, of) {
        put_field(flags)
    } else {
        put_flag(repeated, flags)
    }
}

/// A key of a literal of whose type this is known; a name may be that of a field.
#[cycle(tree_flags)]
fn key_flags(
    scopes: &TypeScopes,
    key: &Option<Value>,
    of: KnownType,
    repeated: bool,
    flags: &mut Vec<Option<bool>>,
) -> Result<(), NoMemory>
    ensures { OnOk result (flags.new.items
        ≡ flags_key (numbers_of scopes.now) (known_of of.entry) repeated (held_value_option_of key.now)
        flags.old.items) }
{
    match key {
        None => Ok(()),
        Some(Value::Plain(e @ Expr::Ident { .. })) => name_flags(scopes, of, repeated, flags),
        Some(key) => value_flags(scopes, key, in_keys(scopes, of), repeated, flags),
    }
}

/// An element, or inner braces of whose type this is known.
#[cycle(tree_flags)]
fn value_flags(
    scopes: &TypeScopes,
    value: &Value,
    of: KnownType,
    repeated: bool,
    flags: &mut Vec<Option<bool>>,
) -> Result<(), NoMemory>
    ensures { OnOk result (flags.new.items
        ≡ flags_value (numbers_of scopes.now) (known_of of.entry) repeated (value_of value.now) flags.old.items) }
{
    match value {
        Value::Plain(e) => expr_flags(scopes, e, repeated, flags),
        Value::Braced { elems, .. } => elems_flags(scopes, elems, of, repeated, flags),
    }
}
