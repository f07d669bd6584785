//! Copies of names, types and signatures.

ghost use Rattle.std.specs.Prelude.{◌≡◌, IfOk, map};
ghost use Rattle.std.specs.Option.{option_map};
ghost use Rattle.go_tree.specs.View.{type_of, fields_of, field_of, param_of, sig_of};

use go_tree::{
    FieldSpec, FieldSpecList, Name, NameAt, NameAtList, NoMemory, Param, ParamList, Sig, Text,
    TypeExpr,
};
use std::alloc::Global;

pub(crate) fn copy_name(alloc: Global, name: &Name) -> Result<Name, NoMemory>
    ensures { IfOk result (λ n. n ≡ name.now) }
{
    Name::copied(alloc, name.items())
}

pub(crate) fn copy_text(alloc: Global, text: &Text) -> Result<Text, NoMemory>
    ensures { IfOk result (λ t. t ≡ text.now) }
{
    Text::copied(alloc, text.items())
}

pub(crate) fn copy_name_at(alloc: Global, name: &NameAt) -> Result<NameAt, NoMemory>
    ensures { IfOk result (λ n. n ≡ name.now) }
{
    Ok(NameAt {
        span: name.span,
        name: copy_name(alloc, &name.name)?,
    })
}

pub(crate) fn copy_name_at_option(
    alloc: Global,
    name: &Option<NameAt>,
) -> Result<Option<NameAt>, NoMemory>
    ensures { IfOk result (λ n. n ≡ name.now) }
{
    match name {
        None => Ok(None),
        Some(name) => Ok(Some(copy_name_at(alloc, name)?)),
    }
}

pub(crate) fn copy_names(alloc: Global, names: &NameAtList) -> Result<NameAtList, NoMemory>
    ensures { IfOk result (λ n. n ≡ names.now) }
{
    let mut copies = Vec::new(alloc);
    for name in names.items() {
        copies.push(copy_name_at(alloc, name)?)?;
    }
    Ok(NameAtList::of(copies))
}

#[cycle(copy_type)]
pub(crate) fn copy_type(alloc: Global, t: &TypeExpr) -> Result<TypeExpr, NoMemory>
    ensures { IfOk result (λ c. type_of c ≡ type_of t.now) }
{
    match t {
        TypeExpr::Named {
            span,
            package,
            name,
        } => Ok(TypeExpr::Named {
            span: *span,
            package: copy_name_at_option(alloc, package)?,
            name: copy_name_at(alloc, name)?,
        }),
        TypeExpr::Pointer { span, to } => Ok(TypeExpr::Pointer {
            span: *span,
            to: copy_boxed_type(alloc, to)?,
        }),
        TypeExpr::Slice { span, of } => Ok(TypeExpr::Slice {
            span: *span,
            of: copy_boxed_type(alloc, of)?,
        }),
        TypeExpr::Map { span, key, of } => Ok(TypeExpr::Map {
            span: *span,
            key: copy_boxed_type(alloc, key)?,
            of: copy_boxed_type(alloc, of)?,
        }),
        TypeExpr::Struct { span, fields } => Ok(TypeExpr::Struct {
            span: *span,
            fields: copy_fields(alloc, fields)?,
        }),
    }
}

#[cycle(copy_type)]
fn copy_boxed_type(alloc: Global, t: &Box<TypeExpr>) -> Result<Box<TypeExpr>, NoMemory>
    ensures { IfOk result (λ c. type_of c.value ≡ type_of t.now.value) }
{
    Ok(Box::new(alloc, copy_type(alloc, t)?)?)
}

#[cycle(copy_type)]
#[tactic(auto, using(crate::proofs::CopyLemmas::map_copied, crate::proofs::CopyLemmas::fields_copied))]
fn copy_fields(alloc: Global, fields: &FieldSpecList) -> Result<FieldSpecList, NoMemory>
    ensures { IfOk result (λ c. fields_of c ≡ fields_of fields.now) }
{
    let mut copies = Vec::new(alloc);
    for field in fields.items() {
        copies.push(copy_field(alloc, field)?)?;
    }
    Ok(FieldSpecList::of(copies))
}

#[cycle(copy_type)]
fn copy_field(alloc: Global, field: &FieldSpec) -> Result<FieldSpec, NoMemory>
    ensures { IfOk result (λ c. field_of c ≡ field_of field.now) }
{
    Ok(FieldSpec {
        span: field.span,
        name: copy_name_at(alloc, &field.name)?,
        of: copy_type(alloc, &field.of)?,
    })
}

pub(crate) fn copy_type_option(
    alloc: Global,
    t: &Option<TypeExpr>,
) -> Result<Option<TypeExpr>, NoMemory>
    ensures { IfOk result (λ c. option_map type_of c ≡ option_map type_of t.now) }
{
    match t {
        None => Ok(None),
        Some(t) => Ok(Some(copy_type(alloc, t)?)),
    }
}

fn copy_param(alloc: Global, p: &Param) -> Result<Param, NoMemory>
    ensures { IfOk result (λ c. param_of c ≡ param_of p.now) }
{
    Ok(Param {
        span: p.span,
        name: copy_name_at_option(alloc, &p.name)?,
        rest: p.rest,
        of: copy_type(alloc, &p.of)?,
    })
}

#[tactic(auto, using(crate::proofs::CopyLemmas::map_copied))]
fn copy_params(alloc: Global, params: &ParamList) -> Result<ParamList, NoMemory>
    ensures { IfOk result (λ c. map param_of c ≡ map param_of params.now) }
{
    let mut copies = Vec::new(alloc);
    for param in params.items() {
        copies.push(copy_param(alloc, param)?)?;
    }
    Ok(ParamList::of(copies))
}

pub(crate) fn copy_sig(alloc: Global, sig: &Sig) -> Result<Sig, NoMemory>
    ensures { IfOk result (λ c. sig_of c ≡ sig_of sig.now) }
{
    Ok(Sig {
        params: copy_params(alloc, &sig.params)?,
        results: copy_params(alloc, &sig.results)?,
    })
}
