//! Names of packages and imports that are predeclared as values.

ghost use Rattle.std.specs.Prelude.{◌≡◌, map};
ghost use Rattle.std.specs.List.{list_all};
ghost use Rattle.constant_modules.specs.ApartKeys.Files.{is_value_name as spec_is_value_name};
ghost use Rattle.constant_modules.specs.KeyedImports.Keyed.{means_value};
ghost use Rattle.go_tree.specs.FileView.{file_of, import_spec_of};
ghost use Rattle.module_marks.specs.Views.{texts_of};
ghost use Rattle.pkg_graph.specs.Views.{package_view};
ghost use Rattle.run_plans.specs.PlannedModules.Modules.{imports_apart, is_formed, named_apart, package_apart};
ghost use Rattle.universe_block.specs.Meanings.{meaning_of};

use crate::planned_modules::dots::without_dots;
use go_tree::{FileTree, ImportSpec};
use module_texts::ScannedFile;
use pkg_graph::Package;
use universe_block::{PredeclaredEntity, predeclared};

/// Whether what a name means in the universe block is a value.
fn is_value(meaning: Option<PredeclaredEntity>) -> bool
    ensures { result ≡ means_value (meaning_of meaning) }
{
    match meaning {
        Some(PredeclaredEntity::Truth(_)) => true,
        Some(PredeclaredEntity::Iota) => true,
        Some(PredeclaredEntity::Nil) => true,
        Some(PredeclaredEntity::TypeName(_)) => false,
        Some(PredeclaredEntity::Function(_)) => false,
        None => false,
    }
}

/// Whether a name is predeclared as a value: `true`, `false`, `nil` or `iota` (Go specification, Predeclared
/// identifiers).
fn is_value_name(name: &[u8]) -> bool
    ensures { result ≡ spec_is_value_name name.now }
{
    is_value(predeclared(name))
}

/// Whether the spec of an import writes no such name.
fn spec_apart(spec: &ImportSpec) -> bool
    ensures { result ≡ named_apart (import_spec_of spec.now) }
{
    match &spec.name {
        Some(name) => !is_value_name(name.name.items()),
        None => true,
    }
}

/// Whether none of these import specs does.
fn specs_apart(specs: &[ImportSpec]) -> bool
    ensures { result ≡ list_all named_apart (map import_spec_of specs.now) }
{
    for spec in specs {
        if !spec_apart(spec) {
            return false;
        }
    }
    true
}

/// Whether no import of the file does.
fn imports_apart(tree: &FileTree) -> bool
    ensures { result ≡ imports_apart (file_of tree.now) }
{
    for decl in tree.imports.items() {
        if !specs_apart(decl.specs.items()) {
            return false;
        }
    }
    true
}

/// Whether neither the package nor an import of its files is named so.
fn package_apart(home: &Package) -> bool
    ensures { result ≡ package_apart (package_view home.now) }
{
    if is_value_name(home.name.items()) {
        return false;
    }
    for file in home.files.items() {
        if !imports_apart(&file.tree) {
            return false;
        }
    }
    true
}

/// Whether no package and no import is named `true`, `false`, `nil` or `iota` (Go specification, Predeclared
/// identifiers; Import declarations; Package clause).
fn names_apart(packages: &[Package]) -> bool
    ensures { result ≡ list_all package_apart (map package_view packages.now) }
{
    for home in packages {
        if !package_apart(home) {
            return false;
        }
    }
    true
}

/// Whether no file has variadic syntax, and no package or import is named `true`, `false`, `nil` or `iota`.
pub(crate) fn is_formed(files: &[ScannedFile], packages: &[Package]) -> bool
    ensures { result ≡ is_formed (map package_view packages.now) (texts_of files.now) }
{
    without_dots(files) && names_apart(packages)
}
