//! Files and their declarations.

ghost use Rattle.std.specs.Prelude.{◌≡◌};

use crate::spans::Span;
use crate::stmts::{Block, ConstDecl, VarDecl};
use crate::texts::{NameAt, Text};
use crate::types::{Sig, TypeExpr};
use std::marker::Model;

/// One import: its name where it has one, and the value of its path (Go specification, Import declarations).
#[derive(Drop)]
pub struct ImportSpec {
    pub span: Span,
    pub name: Option<NameAt>,
    pub path: Text,
}

/// The specs of an import declaration.
pub struct ImportSpecList {
    items: Vec<ImportSpec>,
}

impl Drop for ImportSpecList {
    fn drop(self) {
        let ImportSpecList { items: _ } = self;
    }
}

impl Model for ImportSpecList {
    ghost use Rattle.std.specs.Prelude.{List};
    ghost use Rattle.go_tree.specs.declared.files.ImportSpec.{ImportSpec};

    ghost Value = { List ImportSpec };

    ghost view = { λ a. a.items.items };
}

impl ImportSpecList {
    /// The list of these entries.
    pub fn of(v: Vec<ImportSpec>) -> Self
        ensures { result ≡ v.items }
    {
        ImportSpecList { items: v }
    }

    /// Its entries.
    pub fn items(&self) -> &[ImportSpec]
        ensures { result.now ≡ self.now }
    {
        &self.items
    }
}

/// `import` with one spec, or with a group in parentheses.
#[derive(Drop)]
pub struct ImportDecl {
    pub span: Span,
    pub grouped: bool,
    pub specs: ImportSpecList,
}

/// The import declarations of a file.
pub struct ImportDeclList {
    items: Vec<ImportDecl>,
}

impl Drop for ImportDeclList {
    fn drop(self) {
        let ImportDeclList { items: _ } = self;
    }
}

impl Model for ImportDeclList {
    ghost use Rattle.std.specs.Prelude.{List};
    ghost use Rattle.go_tree.specs.declared.files.ImportDecl.{ImportDecl};

    ghost Value = { List ImportDecl };

    ghost view = { λ a. a.items.items };
}

impl ImportDeclList {
    /// The list of these entries.
    pub fn of(v: Vec<ImportDecl>) -> Self
        ensures { result ≡ v.items }
    {
        ImportDeclList { items: v }
    }

    /// Its entries.
    pub fn items(&self) -> &[ImportDecl]
        ensures { result.now ≡ self.now }
    {
        &self.items
    }
}

/// A defined type or, with `alias`, an alias (Go specification, Type declarations).
#[derive(Drop)]
pub struct TypeSpec {
    pub span: Span,
    pub name: NameAt,
    pub alias: bool,
    pub of: TypeExpr,
}

/// The specs of a type declaration.
pub struct TypeSpecList {
    items: Vec<TypeSpec>,
}

impl Drop for TypeSpecList {
    fn drop(self) {
        let TypeSpecList { items: _ } = self;
    }
}

impl Model for TypeSpecList {
    ghost use Rattle.std.specs.Prelude.{List};
    ghost use Rattle.go_tree.specs.declared.files.TypeSpec.{TypeSpec};

    ghost Value = { List TypeSpec };

    ghost use Rattle.go_tree.specs.contracts.types.TypeExpr as t;
    ghost use Rattle.std.specs.Coded.{codes};

    ghost coded = { Prim.hlevel (codes, t.the_row.coded) };

    ghost view = { λ a. a.items.items };
}

impl TypeSpecList {
    /// The list of these entries.
    pub fn of(v: Vec<TypeSpec>) -> Self
        ensures { result ≡ v.items }
    {
        TypeSpecList { items: v }
    }

    /// Its entries.
    pub fn items(&self) -> &[TypeSpec]
        ensures { result.now ≡ self.now }
    {
        &self.items
    }
}

/// `type` with one spec, or with a group in parentheses.
#[derive(Drop)]
pub struct TypeDecl {
    pub span: Span,
    pub grouped: bool,
    pub specs: TypeSpecList,
}

/// The receiver of a method: of type `of`, or `*of` with `pointer` (Go specification, Method declarations).
#[derive(Drop)]
pub struct Receiver {
    pub span: Span,
    pub name: Option<NameAt>,
    pub pointer: bool,
    pub of: NameAt,
}

/// A function or, with a receiver, a method (Go specification, Function declarations).
#[derive(Drop)]
pub struct FuncDecl {
    pub span: Span,
    pub receiver: Option<Receiver>,
    pub name: NameAt,
    pub sig: Sig,
    pub body: Block,
}

/// A declaration of the package block (Go specification, Declarations and scope).
pub enum Decl {
    Const(ConstDecl),
    Var(VarDecl),
    Types(TypeDecl),
    Func(FuncDecl),
}

impl Drop for Decl {
    fn drop(self) {
        match self {
            Decl::Const(_) => (),
            Decl::Var(_) => (),
            Decl::Types(_) => (),
            Decl::Func(_) => (),
        }
    }
}

/// The declarations of a file that aren't imports.
pub struct DeclList {
    items: Vec<Decl>,
}

impl Drop for DeclList {
    fn drop(self) {
        let DeclList { items: _ } = self;
    }
}

impl Model for DeclList {
    ghost use Rattle.std.specs.Prelude.{List};
    ghost use Rattle.go_tree.specs.declared.files.Decl.{Decl};

    ghost Value = { List Decl };

    ghost use Rattle.go_tree.specs.contracts.files.Decl as d;
    ghost use Rattle.std.specs.Coded.{coded_list};

    ghost coded = { coded_list d.the_row.coded };

    ghost view = { λ a. a.items.items };
}

impl DeclList {
    /// The list of these entries.
    pub fn of(v: Vec<Decl>) -> Self
        ensures { result ≡ v.items }
    {
        DeclList { items: v }
    }

    /// Its entries.
    pub fn items(&self) -> &[Decl]
        ensures { result.now ≡ self.now }
    {
        &self.items
    }
}

/// A source file: its package clause, imports and declarations (Go specification, Source file organization).
#[derive(Drop)]
pub struct FileTree {
    pub package: NameAt,
    pub imports: ImportDeclList,
    pub decls: DeclList,
}
