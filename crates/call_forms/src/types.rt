//! Names, types and signatures as they are written at a use.

ghost use Rattle.std.specs.Prelude.{◌≡◌, IfOk, Option, map};
ghost use Rattle.std.specs.Option.{option_map};
ghost use Rattle.go_tree.specs.View.{name_at_of, type_of, fields_of, field_of, param_of, sig_of};
ghost use Rattle.call_forms.specs.Written.{written_name, written_label, written_package, written_type, written_fields};
ghost use Rattle.call_forms.specs.Written.{written_field, written_type_option, written_param, written_sig};
ghost use Rattle.call_forms.specs.Written.{told, written_names};

use crate::qualifiers::There;
use go_tree::{
    FieldSpec, FieldSpecList, Name, NameAt, NameAtList, NoMemory, Param, ParamList, Sig, Span,
    Text, TypeExpr,
};
use std::alloc::Global;

pub(crate) fn copied_text(alloc: Global, text: &Text) -> Result<Text, NoMemory>
    ensures { IfOk result (λ t. t ≡ text.now) }
{
    Text::copied(alloc, text.items())
}

/// A copy of a name, which stands where all that is written does.
pub(crate) fn placed_name(alloc: Global, there: &There, name: &Name) -> Result<NameAt, NoMemory>
    ensures { IfOk result (λ n. name_at_of n ≡ record { span = there.now.span; name = name.now }) }
{
    Ok(NameAt {
        span: there.span,
        name: Name::copied(alloc, name.items())?,
    })
}

pub(crate) fn written_name(alloc: Global, there: &There, name: &NameAt) -> Result<NameAt, NoMemory>
    ensures { IfOk result (λ n. name_at_of n ≡ written_name there.now (name_at_of name.now)) }
{
    placed_name(alloc, there, &name.name)
}

pub(crate) fn written_label(
    alloc: Global,
    there: &There,
    name: &Option<NameAt>,
) -> Result<Option<NameAt>, NoMemory>
    ensures { IfOk result (λ n. option_map name_at_of n
        ≡ written_label there.now (option_map name_at_of name.now)) }
{
    match name {
        None => Ok(None),
        Some(name) => Ok(Some(written_name(alloc, there, name)?)),
    }
}

#[tactic(auto, using(crate::proofs::Lists::map_written))]
pub(crate) fn written_names(
    alloc: Global,
    there: &There,
    names: &NameAtList,
) -> Result<NameAtList, NoMemory>
    ensures { IfOk result (λ n. map name_at_of n
        ≡ written_names there.now (map name_at_of names.now)) }
{
    let mut copies = Vec::new(alloc);
    for name in names.items() {
        copies.push(written_name(alloc, there, name)?)?;
    }
    Ok(NameAtList::of(copies))
}

/// The package before the name of a type that stands at the span.
fn written_package(
    alloc: Global,
    there: &There,
    span: Span,
    before: &Option<NameAt>,
) -> Result<Option<NameAt>, NoMemory>
    ensures { IfOk result (λ p. option_map name_at_of p
        ≡ written_package there.now (told there.now span) (option_map name_at_of before.now)) }
{
    match there.qualifiers.at(span) {
        None => written_label(alloc, there, before),
        Some(name) => Ok(Some(placed_name(alloc, there, name)?)),
    }
}

/// A type as it is written at the use (Go specification, Types; Qualified identifiers). An error where memory is
/// refused.
#[cycle(written_types)]
pub fn written_type(alloc: Global, there: &There, t: &TypeExpr) -> Result<TypeExpr, NoMemory>
    ensures { IfOk result (λ c. type_of c ≡ written_type there.now (type_of t.now)) }
{
    match t {
        TypeExpr::Named {
            span,
            package,
            name,
        } => Ok(TypeExpr::Named {
            span: there.span,
            package: written_package(alloc, there, *span, package)?,
            name: written_name(alloc, there, name)?,
        }),
        TypeExpr::Pointer { to, .. } => Ok(TypeExpr::Pointer {
            span: there.span,
            to: boxed_type(alloc, there, to)?,
        }),
        TypeExpr::Slice { of, .. } => Ok(TypeExpr::Slice {
            span: there.span,
            of: boxed_type(alloc, there, of)?,
        }),
        TypeExpr::Map { key, of, .. } => Ok(TypeExpr::Map {
            span: there.span,
            key: boxed_type(alloc, there, key)?,
            of: boxed_type(alloc, there, of)?,
        }),
        TypeExpr::Struct { fields, .. } => Ok(TypeExpr::Struct {
            span: there.span,
            fields: written_fields(alloc, there, fields)?,
        }),
    }
}

#[cycle(written_types)]
fn boxed_type(alloc: Global, there: &There, t: &Box<TypeExpr>) -> Result<Box<TypeExpr>, NoMemory>
    ensures { IfOk result (λ c. type_of c.value ≡ written_type there.now (type_of t.now.value)) }
{
    Ok(Box::new(alloc, written_type(alloc, there, t)?)?)
}

#[cycle(written_types)]
#[tactic(auto, using(crate::proofs::Lists::map_written))]
fn written_fields(
    alloc: Global,
    there: &There,
    fields: &FieldSpecList,
) -> Result<FieldSpecList, NoMemory>
    ensures { IfOk result (λ c. fields_of c ≡ written_fields there.now (fields_of fields.now)) }
{
    let mut copies = Vec::new(alloc);
    for field in fields.items() {
        copies.push(written_field(alloc, there, field)?)?;
    }
    Ok(FieldSpecList::of(copies))
}

#[cycle(written_types)]
fn written_field(alloc: Global, there: &There, field: &FieldSpec) -> Result<FieldSpec, NoMemory>
    ensures { IfOk result (λ c. field_of c ≡ written_field there.now (field_of field.now)) }
{
    Ok(FieldSpec {
        span: there.span,
        name: written_name(alloc, there, &field.name)?,
        of: written_type(alloc, there, &field.of)?,
    })
}

pub(crate) fn written_type_option(
    alloc: Global,
    there: &There,
    t: &Option<TypeExpr>,
) -> Result<Option<TypeExpr>, NoMemory>
    ensures { IfOk result (λ c. option_map type_of c ≡ written_type_option there.now (option_map type_of t.now)) }
{
    match t {
        None => Ok(None),
        Some(t) => Ok(Some(written_type(alloc, there, t)?)),
    }
}

fn written_param(alloc: Global, there: &There, p: &Param) -> Result<Param, NoMemory>
    ensures { IfOk result (λ c. param_of c ≡ written_param there.now (param_of p.now)) }
{
    Ok(Param {
        span: there.span,
        name: written_label(alloc, there, &p.name)?,
        rest: p.rest,
        of: written_type(alloc, there, &p.of)?,
    })
}

/// Parameters or results as they are written at the use. An error where memory is refused.
#[tactic(auto, using(crate::proofs::Lists::map_written))]
pub(crate) fn written_params(
    alloc: Global,
    there: &There,
    params: &ParamList,
) -> Result<ParamList, NoMemory>
    ensures { IfOk result (λ c. map param_of c ≡ map (written_param there.now) (map param_of params.now)) }
{
    let mut copies = Vec::new(alloc);
    for param in params.items() {
        copies.push(written_param(alloc, there, param)?)?;
    }
    Ok(ParamList::of(copies))
}

/// A signature as it is written at the use. An error where memory is refused.
pub fn written_sig(alloc: Global, there: &There, sig: &Sig) -> Result<Sig, NoMemory>
    ensures { IfOk result (λ c. sig_of c ≡ written_sig there.now (sig_of sig.now)) }
{
    Ok(Sig {
        params: written_params(alloc, there, &sig.params)?,
        results: written_params(alloc, there, &sig.results)?,
    })
}
