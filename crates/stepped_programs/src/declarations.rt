//! The declaration of a step.

ghost use Rattle.std.specs.Prelude.{◌≡◌, option_copied};
ghost use Rattle.std.specs.Option.{option_map};
ghost use Rattle.repeated_parts.specs.UseSearch.MarkValues.Tables.{decl_at, tree_at};
ghost use Rattle.stepped_programs.specs.Steps.{file_spans, key_at, own_spans, spans_at};

use crate::place::StepPlace;
use go_tree::{Decl, Span};
use pkg_graph::{Package, SourceTree};
use programs::{Origins, PackageOrigins};

/// The file at the place.
fn file_at(packages: &[Package], at: StepPlace) -> Option<&SourceTree>
    ensures { option_copied result ≡ tree_at packages.now (key_at at) }
{
    match packages.get(at.home) {
        None => None,
        Some(home) => home.files.items().get(at.file),
    }
}

/// The declaration at the place.
pub(crate) fn decl_at(packages: &[Package], at: StepPlace) -> Option<&Decl>
    ensures { option_copied result ≡ decl_at packages.now (key_at at) }
{
    match file_at(packages, at) {
        None => None,
        Some(source) => source.tree.decls.items().get(at.decl),
    }
}

/// The origins of its parts, of those of a file.
fn own_spans(own: &Origins, decl: usize) -> Option<&[Span]>
    ensures { option_map (λ s. s.now) result ≡ own_spans own.now decl }
{
    match own.decls.get(decl) {
        None => None,
        Some(spans) => Some(spans.as_slice()),
    }
}

/// The same of those of a package.
fn file_spans(home: &PackageOrigins, file: usize, decl: usize) -> Option<&[Span]>
    ensures { option_map (λ s. s.now) result ≡ file_spans home.now file decl }
{
    match home.files.get(file) {
        None => None,
        Some(own) => own_spans(own, decl),
    }
}

/// The same of those of a program.
pub(crate) fn spans_at(origins: &[PackageOrigins], at: StepPlace) -> Option<&[Span]>
    ensures { option_map (λ s. s.now) result ≡ spans_at origins.now (key_at at) }
{
    match origins.get(at.home) {
        None => None,
        Some(home) => file_spans(home, at.file, at.decl),
    }
}
