//! A program, and what is kept of the files of its packages.

use crate::part_origins::PackageOrigins;
use crate::users::Users;
use file_names::Places;
use go_scan::Tokens;
use go_tree::Text;
use module_marks::{BadMarkAt, MarkTable};
use pkg_graph::Package;
use repeated_parts::literal_types::LiteralTypes;
use repeated_parts::use_search::mark_values::ConstantValues;

/// What is kept of the files of a package, by their numbers: their texts, with tokens and comments, and of which it
/// is known that none of their uses is free.
#[derive(Drop)]
pub struct PackageFiles {
    pub texts: Vec<Text>,
    pub tokens: Vec<Tokens>,
    pub settled: Vec<bool>,
}

/// A program as it stands, whose marks stay those of the files as read.
///
/// `files` is what is kept of the files of each package, and `origins` where their parts come from; `places` says
/// where each package stands by its path, and `order` are their numbers in the order of their imports. `marks` tells
/// which names of package blocks are marked, `values` what marked constants are declared as, and `bad` are the marks
/// that mean nothing. `types` are the declared types, by which the keys of composite literals are told from names of
/// fields. `users` are the files that use marked constants, of those that are settled. `bytes` are those of `go.mod` and
/// of all texts.
#[derive(Drop)]
pub struct Program {
    pub packages: Vec<Package>,
    pub files: Vec<PackageFiles>,
    pub origins: Vec<PackageOrigins>,
    pub places: Places,
    pub order: Vec<u32>,
    pub marks: MarkTable,
    pub bad: Vec<BadMarkAt>,
    pub values: ConstantValues,
    pub types: LiteralTypes,
    pub users: Users,
    pub bytes: u32,
}
