//! The imports of all files.

ghost use Rattle.std.specs.Prelude.{◌≡◌, ◌<◌, ◌^◌, IfOk, OnOk, map, length};
ghost use Rattle.pkg_graph.specs.ModuleFiles.PathLists.{AreDistinct};
ghost use Rattle.pkg_graph.specs.Views.{AreNumbersBelow};
ghost use Rattle.pkg_graph.specs.ImportViews.{import_view, specs_of, imports_in, AreLinksOf, AddsImports, AreImportsOf};
ghost use Rattle.pkg_graph.specs.ImportViews.{AddsLink};

use crate::homes::Homes;
use crate::import_order::rows::Rows;
use crate::module_files::paths::Paths;
use crate::packages::SourceTree;
use go_tree::{FileTree, ImportSpec, NoMemory};
use std::alloc::Global;

/// An import spec, with the number of its file and the path of the package that imports.
#[derive(Drop)]
pub(crate) struct Import<'a> {
    pub(crate) file: u32,
    pub(crate) from: &'a [u8],
    pub(crate) spec: &'a ImportSpec,
}

/// Adds the import specs of a declaration.
fn add_specs<'a>(
    file: u32,
    from: &'a [u8],
    specs: &'a [ImportSpec],
    list: &mut Vec<Import<'a>>,
) -> Result<(), NoMemory>
    ensures { OnOk result (AddsImports list.old.items list.new.items (specs_of file from.now specs.now)) }
{
    for spec in specs {
        list.push(Import { file, from, spec })?;
    }
    Ok(())
}

/// Adds the import specs of a file.
fn add_file<'a>(
    file: u32,
    from: &'a [u8],
    tree: &'a FileTree,
    list: &mut Vec<Import<'a>>,
) -> Result<(), NoMemory>
    ensures { OnOk result (AddsImports list.old.items list.new.items (imports_in file from.now tree.now)) }
{
    for decl in tree.imports.items() {
        add_specs(file, from, decl.specs.items(), list)?;
    }
    Ok(())
}

/// The imports of the files, in their order.
pub(crate) fn find_imports<'a>(
    alloc: Global,
    files: &'a [SourceTree],
    homes: &'a Homes,
) -> Result<Vec<Import<'a>>, NoMemory>
    requires count { length files.now < 2 ^ 32 }
    requires numbers { length homes.now.numbers.items ≡ length files.now }
    requires within { AreNumbersBelow (length homes.now.paths) files.now homes.now }
    ensures { IfOk result (λ list. AreImportsOf files.now homes.now list.items) }
{
    let mut list = Vec::new(alloc);
    for (file, source) in files.iter().enumerate() {
        let from = homes.paths.path(homes.numbers[file]);
        add_file(file as u32, from, &source.tree, &mut list)?;
    }
    Ok(list)
}

/// Adds a link between the packages with two paths.
fn add_link(paths: &Paths, rows: &mut Rows, from: &[u8], to: &[u8]) -> Result<(), NoMemory>
    requires distinct { AreDistinct paths.now }
    requires size { length rows.old ≡ length paths.now }
    ensures size { OnOk result (length rows.new ≡ length paths.now) }
    ensures row { OnOk result (AddsLink paths.now from.now to.now rows.old rows.new) }
{
    if let Some(from) = paths.number(from) {
        if let Some(to) = paths.number(to) {
            rows.add(from, to)?;
        }
    }
    Ok(())
}

/// For each package the numbers of those that it imports.
pub(crate) fn find_links(alloc: Global, paths: &Paths, imports: &[Import]) -> Result<Rows, NoMemory>
    requires { AreDistinct paths.now }
    ensures { IfOk result (λ rows. AreLinksOf paths.now (map import_view imports.now) rows) }
{
    let mut rows = Rows::new(alloc, paths.len())?;
    for import in imports {
        add_link(paths, &mut rows, import.from, import.spec.path.items())?;
    }
    Ok(rows)
}
