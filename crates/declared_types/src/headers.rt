//! Specs of types in package blocks (Go specification, Type declarations).

use go_tree::TypeSpec;

/// The spec of a type that a package block declares, with the number of its file.
#[derive(Drop)]
pub struct TypeHeader<'a> {
    pub file: usize,
    pub spec: &'a TypeSpec,
}
