//! How deep the nodes of types and signatures are nested.

ghost use Rattle.std.specs.Prelude.{◌≡◌, ◌+◌, ℕ, max, map};
ghost use Rattle.std.specs.Option.{option_map};
ghost use Rattle.go_tree.specs.View.{name_at_of, type_of, fields_of, param_of, sig_of};
ghost use Rattle.go_depth.specs.Depth.{capped, greatest, depth_name_option, depth_names, depth_type, depth_fields};
ghost use Rattle.go_depth.specs.Depth.{depth_type_option, depth_param, depth_sig};
ghost use Rattle.go_depth.specs.Deep.{field_deep};

use go_tree::{FieldSpec, FieldSpecList, NameAt, NameAtList, Param, ParamList, Sig, TypeExpr};

// The deeper of two.
#[tactic(auto, using(crate::proofs::DepthLemmas::capped_max))]
pub(crate) fn deeper(a: u32, b: u32) -> u32
    ensures { (m n : ℕ) → a ≡ capped m → b ≡ capped n → result ≡ capped (max m n) }
{
    a.max(b)
}

// One node above.
#[tactic(auto, using(crate::proofs::DepthLemmas::capped_above))]
pub(crate) fn above(inner: u32) -> u32
    ensures { (n : ℕ) → inner ≡ capped n → result ≡ capped (n + 1) }
{
    inner.saturating_add(1)
}

pub(crate) fn name_option_depth(name: &Option<NameAt>) -> u32
    ensures { result ≡ capped (depth_name_option (option_map name_at_of name.now)) }
{
    match name {
        None => 0,
        Some(_) => 1,
    }
}

#[cycle(type_depth)]
pub(crate) fn type_depth(t: &TypeExpr) -> u32
    ensures { result ≡ capped (depth_type (type_of t.now)) }
{
    match t {
        TypeExpr::Named { package, .. } => above(deeper(name_option_depth(package), 1)),
        TypeExpr::Pointer { to, .. } => above(type_depth(to)),
        TypeExpr::Slice { of, .. } => above(type_depth(of)),
        TypeExpr::Map { key, of, .. } => above(deeper(type_depth(key), type_depth(of))),
        TypeExpr::Struct { fields, .. } => above(fields_depth(fields)),
    }
}

#[cycle(type_depth)]
#[tactic(auto, using(crate::proofs::DepthLemmas::greatest_more, crate::proofs::DepthLemmas::fields_walked))]
fn fields_depth(fields: &FieldSpecList) -> u32
    ensures { result ≡ capped (depth_fields (fields_of fields.now)) }
{
    let mut deepest = 0;
    for field in fields.items() {
        deepest = deeper(deepest, field_depth(field));
    }
    deepest
}

#[cycle(type_depth)]
fn field_depth(field: &FieldSpec) -> u32
    ensures { result ≡ capped (field_deep field.now) }
{
    above(deeper(1, type_depth(&field.of)))
}

#[tactic(auto, using(crate::proofs::DepthLemmas::names_none, crate::proofs::DepthLemmas::names_some))]
pub(crate) fn names_depth(names: &NameAtList) -> u32
    ensures { result ≡ capped (depth_names (map name_at_of names.now)) }
{
    if names.items().is_empty() { 0 } else { 1 }
}

pub(crate) fn type_option_depth(t: &Option<TypeExpr>) -> u32
    ensures { result ≡ capped (depth_type_option (option_map type_of t.now)) }
{
    match t {
        None => 0,
        Some(t) => type_depth(t),
    }
}

fn param_depth(p: &Param) -> u32
    ensures { result ≡ capped (depth_param (param_of p.now)) }
{
    above(deeper(name_option_depth(&p.name), type_depth(&p.of)))
}

#[tactic(auto, using(crate::proofs::DepthLemmas::greatest_more, crate::proofs::DepthLemmas::params_walked))]
fn params_depth(params: &ParamList) -> u32
    ensures { result ≡ capped (greatest depth_param (map param_of params.now)) }
{
    let mut deepest = 0;
    for param in params.items() {
        deepest = deeper(deepest, param_depth(param));
    }
    deepest
}

pub(crate) fn sig_depth(sig: &Sig) -> u32
    ensures { result ≡ capped (depth_sig (sig_of sig.now)) }
{
    deeper(params_depth(&sig.params), params_depth(&sig.results))
}
