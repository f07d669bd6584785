//! Headers of declarations (Go specification, Declarations and scope; Constant declarations; Iota).

use go_tree::{ConstSpec, FuncDecl, NameAtList, Span, TypeSpec, VarSpec};

/// What a header declares: one member of a group, or a declaration by itself.
#[derive(Clone, Copy, Drop)]
pub enum HeaderKind<'a> {
    /// Constants, with the spec whose type and values they have, if there is one, and the number of
    /// their own spec.
    Constants {
        names: &'a NameAtList,
        repeats: Option<&'a ConstSpec>,
        number: usize,
    },
    Variables(&'a VarSpec),
    Type(&'a TypeSpec),
    Function(&'a FuncDecl),
}

/// A header with the number of its file among all files, its place, and whether its names may be
/// declared beside those before it in their package block (Go specification, Uniqueness of
/// identifiers).
#[derive(Clone, Copy, Drop)]
pub struct PackageHeader<'a> {
    pub file: usize,
    pub at: Span,
    pub sound: bool,
    pub kind: HeaderKind<'a>,
}

/// Where a declaration stands: the number of its package, and that of its file among all files.
#[derive(Clone, Copy, Drop)]
pub(crate) struct FileAt {
    pub(crate) home: u32,
    pub(crate) file: usize,
}
