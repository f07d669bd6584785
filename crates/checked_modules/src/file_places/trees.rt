//! The trees of a module's files, package after package in their order.

ghost use Rattle.std.specs.Prelude.{◌≡◌, ◌++◌, slice_get, IfOk, OnOk};
ghost use Rattle.checked_modules.specs.FilePlaces.Trees.{package_trees, shown, trees_in, trees_of};

use go_tree::{FileTree, NoMemory};
use pkg_graph::{Package, SourceTree};
use std::alloc::Global;

/// Adds the trees of files.
fn add_trees<'a>(trees: &mut Vec<&'a FileTree>, files: &'a [SourceTree]) -> Result<(), NoMemory>
    ensures { OnOk result (shown trees.new.items ≡ shown trees.old.items ++ trees_in files.now) }
{
    for file in files {
        trees.push(&file.tree)?;
    }
    Ok(())
}

/// Adds those of the package with a number, if there is one.
fn add_package<'a>(
    trees: &mut Vec<&'a FileTree>,
    packages: &'a [Package],
    number: u32,
) -> Result<(), NoMemory>
    ensures { OnOk result (shown trees.new.items
        ≡ shown trees.old.items ++ package_trees (slice_get packages.now number)) }
{
    match packages.get(number as usize) {
        Some(package) => add_trees(trees, package.files.items()),
        None => Ok(()),
    }
}

/// The trees of the files of the packages with these numbers, one package after the other.
pub(crate) fn module_trees<'a>(
    alloc: Global,
    packages: &'a [Package],
    order: &[u32],
) -> Result<Vec<&'a FileTree>, NoMemory>
    ensures { IfOk result (λ trees. shown trees.items ≡ trees_of packages.now order.now) }
{
    let mut trees = Vec::new(alloc);
    for number in order {
        add_package(&mut trees, packages, *number)?;
    }
    Ok(trees)
}
