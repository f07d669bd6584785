//! A file that is replaced.

ghost use Rattle.std.specs.Prelude.{◌≡◌, ◌<◌, Some, length, map, slice_get};
ghost use Rattle.go_tree.specs.FileView.{file_of};
ghost use Rattle.pkg_graph.specs.Views.{package_view};
ghost use Rattle.pkg_graph.specs.declared.packages.Package as code;
ghost use Rattle.run_rules.specs.Steps.{change_nth};
ghost use Rattle.file_tables.specs.ReplacedFiles.Replaced.{with_tree_of};

use go_tree::FileTree;
use pkg_graph::{Package, SourceList};
use std::alloc::Global;

/// The package has this tree for the file with this number from now on.
fn replace_tree(alloc: Global, home: &mut Package, file: usize, tree: FileTree)
    requires { file < length home.old.files }
    ensures { package_view home.new ≡ with_tree_of file (file_of tree) (package_view home.old) }
{
    let files = std::mem::replace(&mut home.files, SourceList::of(Vec::new(alloc)));
    let mut sources = files.into_items();
    sources[file].tree = tree;
    home.files = SourceList::of(sources);
}

/// The package with this number has this tree for its file with this number from now on, as after a step (Go
/// specification, Packages; Source file organization). All else stays, and nothing is copied.
pub fn replace_file(
    alloc: Global,
    packages: &mut [Package],
    number: usize,
    file: usize,
    tree: FileTree,
)
    requires package { number < length packages.old }
    requires file { (p : code.Package) → slice_get packages.old number ≡ Some p → file < length p.files }
    ensures { map package_view packages.new
        ≡ change_nth number (with_tree_of file (file_of tree)) (map package_view packages.old) }
{
    replace_tree(alloc, &mut packages[number], file, tree);
}
