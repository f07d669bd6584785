//! Which packages each package imports.

ghost use Rattle.std.specs.Prelude.{◌≡◌, ◌<◌, length, map, IfOk, OnOk};
ghost use Rattle.pkg_graph.specs.ModuleFiles.PathLists.{AreDistinct};
ghost use Rattle.pkg_graph.specs.Views.{package_view};
ghost use Rattle.file_tables.specs.DependencyOrder.Links.{AddsTo, AreLinksOf};

use crate::dependency_order::numbers::package_numbers;
use go_tree::NoMemory;
use pkg_graph::Package;
use pkg_graph::import_order::rows::Rows;
use pkg_graph::module_files::paths::Paths;
use std::alloc::Global;

/// Adds the numbers to a row.
fn add_links(rows: &mut Rows, row: usize, numbers: &[usize]) -> Result<(), NoMemory>
    requires { row < length rows.old }
    ensures { OnOk result (AddsTo row numbers.now rows.old rows.new) }
{
    for number in numbers {
        rows.add(row, *number)?;
    }
    Ok(())
}

/// For each package the numbers of those that it imports.
pub(crate) fn package_links(
    alloc: Global,
    packages: &[Package],
    paths: &Paths,
) -> Result<Rows, NoMemory>
    ensures { IfOk result (AreLinksOf (map package_view packages.now) paths.now) }
{
    let mut rows = Rows::new(alloc, packages.len())?;
    for (number, package) in packages.iter().enumerate() {
        let numbers = package_numbers(alloc, paths, package)?;
        add_links(&mut rows, number, &numbers)?;
    }
    Ok(rows)
}

/// The paths of the packages.
pub(crate) fn package_paths(alloc: Global, packages: &[Package]) -> Result<Paths, NoMemory>
    requires { AreDistinct (map (λ p. p.path) packages.now) }
    ensures { IfOk result (λ paths. paths ≡ map (λ p. p.path) packages.now) }
{
    let mut paths = Paths::new(alloc);
    for package in packages {
        paths.add(package.path.items().to_vec(alloc)?)?;
    }
    Ok(paths)
}
