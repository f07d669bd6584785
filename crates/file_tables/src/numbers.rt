//! Imports by the numbers of their packages.

ghost use Rattle.std.specs.Prelude.{◌≡◌, ◌++◌, map, IfOk, OnOk};
ghost use Rattle.go_tree.specs.FileView.{import_spec_of, file_of};
ghost use Rattle.pkg_graph.specs.Package.{import_specs};
ghost use Rattle.pkg_graph.specs.Views.{package_view};
ghost use Rattle.run_rules.specs.Programs.{package_number};
ghost use Rattle.file_names.specs.Imports.{FindsPackages};
ghost use Rattle.file_tables.specs.Numbers.{number_in};

use file_names::Places;
use go_tree::{FileTree, ImportSpec, NoMemory};
use pkg_graph::Package;
use std::alloc::Global;

/// The number of the package with this path; as many as there are packages where none has it.
fn package_number(packages: &[Package], places: &Places, path: &[u8]) -> usize
    requires { FindsPackages places.now packages.now }
    ensures { result ≡ package_number (map package_view packages.now) path.now }
{
    match places.find(path) {
        Some(place) => place,
        None => packages.len(),
    }
}

/// Adds the numbers of the packages that specs name.
fn add_numbers(
    packages: &[Package],
    places: &Places,
    specs: &[ImportSpec],
    numbers: &mut Vec<usize>,
) -> Result<(), NoMemory>
    requires { FindsPackages places.now packages.now }
    ensures { OnOk result (numbers.new.items ≡ numbers.old.items
        ++ map (number_in (map package_view packages.now)) (map import_spec_of specs.now)) }
{
    for spec in specs {
        let number = package_number(packages, places, spec.path.items());
        numbers.push(number)?;
    }
    Ok(())
}

/// The numbers of the packages that the import specs of a file name, in their order; as many as there are packages where
/// none has the path (Go specification, Import declarations). One look-up a spec. The only error is `NoMemory`.
pub fn import_numbers(
    alloc: Global,
    packages: &[Package],
    places: &Places,
    tree: &FileTree,
) -> Result<Vec<usize>, NoMemory>
    requires { FindsPackages places.now packages.now }
    ensures { IfOk result (λ numbers. numbers.items
        ≡ map (number_in (map package_view packages.now)) (import_specs (file_of tree.now))) }
{
    let mut numbers = Vec::new(alloc);
    for decl in tree.imports.items() {
        add_numbers(packages, places, decl.specs.items(), &mut numbers)?;
    }
    Ok(numbers)
}
