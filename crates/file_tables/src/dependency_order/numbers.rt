//! What a package imports, as numbers of packages.

ghost use Rattle.std.specs.Prelude.{◌≡◌, ◌++◌, map, IfOk, OnOk};
ghost use Rattle.std.specs.Option.{option_to_list};
ghost use Rattle.go_tree.specs.FileView.{import_spec_of, file_of};
ghost use Rattle.pkg_graph.specs.ModuleFiles.PathLists.{number_of};
ghost use Rattle.pkg_graph.specs.Package.{import_specs};
ghost use Rattle.pkg_graph.specs.Graph.{imports_of};
ghost use Rattle.pkg_graph.specs.Views.{package_view};
ghost use Rattle.file_tables.specs.DependencyOrder.Links.{numbers_of, spec_paths};

use go_tree::{FileTree, ImportSpec, NoMemory};
use pkg_graph::Package;
use pkg_graph::module_files::paths::Paths;
use std::alloc::Global;

/// Adds the number of the package with this path, where there is one.
fn add_number(paths: &Paths, path: &[u8], numbers: &mut Vec<usize>) -> Result<(), NoMemory>
    ensures { OnOk result (numbers.new.items ≡ numbers.old.items ++ option_to_list (number_of paths.now path.now)) }
{
    match paths.number(path) {
        None => Ok(()),
        Some(number) => {
            numbers.push(number)?;
            Ok(())
        }
    }
}

/// Adds those that specs name.
fn add_specs(paths: &Paths, specs: &[ImportSpec], numbers: &mut Vec<usize>) -> Result<(), NoMemory>
    ensures { OnOk result (numbers.new.items
        ≡ numbers.old.items ++ numbers_of paths.now (spec_paths (map import_spec_of specs.now))) }
{
    for spec in specs {
        add_number(paths, spec.path.items(), numbers)?;
    }
    Ok(())
}

/// Adds those that a file imports.
fn add_file(paths: &Paths, tree: &FileTree, numbers: &mut Vec<usize>) -> Result<(), NoMemory>
    ensures { OnOk result (numbers.new.items
        ≡ numbers.old.items ++ numbers_of paths.now (spec_paths (import_specs (file_of tree.now)))) }
{
    for decl in tree.imports.items() {
        add_specs(paths, decl.specs.items(), numbers)?;
    }
    Ok(())
}

/// The numbers of the packages that the files of a package import, in their order.
pub(crate) fn package_numbers(
    alloc: Global,
    paths: &Paths,
    home: &Package,
) -> Result<Vec<usize>, NoMemory>
    ensures { IfOk result (λ numbers. numbers.items ≡ numbers_of paths.now (imports_of (package_view home.now))) }
{
    let mut numbers = Vec::new(alloc);
    for source in home.files.items() {
        add_file(paths, &source.tree, &mut numbers)?;
    }
    Ok(numbers)
}
