//! Types and signatures as they are written.

ghost use Rattle.std.specs.Prelude.{◌≡◌, map};
ghost use Rattle.go_tree.specs.declared.types.FieldSpecList.{out-FieldSpecList};
ghost use Rattle.go_tree.specs.View.{field_of, fields_of};
ghost use Rattle.go_tree.specs.Lists.{fields_from};

use crate::spans::Span;
use crate::texts::NameAt;
use std::marker::Model;

/// A type as it is written (Go specification, Types).
#[cycle(types)]
pub enum TypeExpr {
    Named {
        span: Span,
        package: Option<NameAt>,
        name: NameAt,
    },
    Pointer {
        span: Span,
        to: Box<TypeExpr>,
    },
    Slice {
        span: Span,
        of: Box<TypeExpr>,
    },
    Map {
        span: Span,
        key: Box<TypeExpr>,
        of: Box<TypeExpr>,
    },
    Struct {
        span: Span,
        fields: FieldSpecList,
    },
}

impl Drop for TypeExpr {
    #[cycle(type_drop)]
    fn drop(self) {
        match self {
            TypeExpr::Named {
                span: _,
                package: _,
                name: _,
            } => (),
            TypeExpr::Pointer { span: _, to: _ } => (),
            TypeExpr::Slice { span: _, of: _ } => (),
            TypeExpr::Map {
                span: _,
                key: _,
                of: _,
            } => (),
            TypeExpr::Struct { span: _, fields: _ } => (),
        }
    }
}

/// One name of a struct's fields, with its type (Go specification, Struct types).
#[derive(Drop)]
#[cycle(types)]
pub struct FieldSpec {
    pub span: Span,
    pub name: NameAt,
    pub of: TypeExpr,
}

/// The fields of a struct, one entry for each name.
#[cycle(types)]
pub struct FieldSpecList {
    items: Vec<FieldSpec>,
}

impl Drop for FieldSpecList {
    #[cycle(type_drop)]
    fn drop(self) {
        let FieldSpecList { items: _ } = self;
    }
}

#[tactic(auto, using(crate::proofs::ListLemmas::list_lemmas))]
impl FieldSpecList {
    /// The list of these entries.
    pub fn of(v: Vec<FieldSpec>) -> Self
        ensures held { (out-FieldSpecList result).items ≡ v }
        ensures made { fields_of result ≡ fields_from (map field_of v.items) }
    {
        FieldSpecList { items: v }
    }

    /// Its entries.
    pub fn items(&self) -> &[FieldSpec]
        ensures held { result.now ≡ (out-FieldSpecList self.now).items.items }
        ensures seen { fields_of self.now ≡ fields_from (map field_of result.now) }
    {
        &self.items
    }
}

/// One parameter or result (Go specification, Function types); one entry for each name. `rest` is true of the last
/// parameter of a variadic function, written `...T`; `of` is then T.
#[derive(Drop)]
pub struct Param {
    pub span: Span,
    pub name: Option<NameAt>,
    pub rest: bool,
    pub of: TypeExpr,
}

/// Parameters, or results.
pub struct ParamList {
    items: Vec<Param>,
}

impl Drop for ParamList {
    fn drop(self) {
        let ParamList { items: _ } = self;
    }
}

impl Model for ParamList {
    ghost use Rattle.std.specs.Prelude.{List};
    ghost use Rattle.go_tree.specs.declared.types.Param.{Param};
    ghost use Rattle.go_tree.specs.contracts.types.TypeExpr as e;
    ghost use Rattle.std.specs.Coded.{codes};

    ghost Value = { List Param };

    ghost coded = { Prim.hlevel (codes, e.the_row.coded) };

    ghost view = { λ a. a.items.items };
}

impl ParamList {
    /// The list of these entries.
    pub fn of(v: Vec<Param>) -> Self
        ensures { result ≡ v.items }
    {
        ParamList { items: v }
    }

    /// Its entries.
    pub fn items(&self) -> &[Param]
        ensures { result.now ≡ self.now }
    {
        &self.items
    }
}

/// A signature: parameters and results (Go specification, Function types).
#[derive(Drop)]
pub struct Sig {
    pub params: ParamList,
    pub results: ParamList,
}
