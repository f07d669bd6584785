//! Origins of the files of a program.

ghost use Rattle.std.specs.Prelude.{◌≡◌, IfOk, map};
ghost use Rattle.go_tree.specs.FileView.{decl_of};
ghost use Rattle.pkg_graph.specs.Views.{package_view, source_of};
ghost use Rattle.programs.specs.PartOrigins.Spans.{decls_spans, files_spans, packages_spans};
ghost use Rattle.programs.specs.PartOrigins.Views.{origins_of, files_origins, packages_origins};

use crate::part_origins::spans::decl_spans;
use go_tree::{Decl, NoMemory, Span};
use pkg_graph::{Package, SourceTree};
use std::alloc::Global;

/// For each declaration of a file the spans in the file as read from which its parts come that may be uses, in their
/// order.
#[derive(Drop)]
pub struct Origins {
    pub decls: Vec<Vec<Span>>,
}

/// The same for each file of a package.
#[derive(Drop)]
pub struct PackageOrigins {
    pub files: Vec<Origins>,
}

/// The origins of a file as read: each part comes from where it stands.
fn file_origins(alloc: Global, decls: &[Decl]) -> Result<Origins, NoMemory>
    ensures { IfOk result (λ o. origins_of o ≡ decls_spans (map decl_of decls.now)) }
{
    let mut origins = Vec::new(alloc);
    for decl in decls {
        origins.push(decl_spans(alloc, decl)?)?;
    }
    Ok(Origins { decls: origins })
}

/// Those of files.
fn package_origins(alloc: Global, files: &[SourceTree]) -> Result<PackageOrigins, NoMemory>
    ensures { IfOk result (λ o. files_origins o ≡ files_spans (map source_of files.now)) }
{
    let mut origins = Vec::new(alloc);
    for source in files {
        origins.push(file_origins(alloc, source.tree.decls.items())?)?;
    }
    Ok(PackageOrigins { files: origins })
}

/// The origins of the files of a program as read, package by package: each part of a declaration that may be a use
/// comes from where it stands. The only error is `NoMemory`. Linear in the files.
pub fn program_origins(alloc: Global, packages: &[Package]) -> Result<Vec<PackageOrigins>, NoMemory>
    ensures { IfOk result (λ o. packages_origins o.items ≡ packages_spans (map package_view packages.now)) }
{
    let mut origins = Vec::new(alloc);
    for package in packages {
        origins.push(package_origins(alloc, package.files.items())?)?;
    }
    Ok(origins)
}
