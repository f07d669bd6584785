//! What is wrong with the packages of files.

ghost use Rattle.std.specs.Prelude.{◌≡◌, ◌<◌, ◌^◌, true, None, ℕ, length, IfErr, OnOk};
ghost use Rattle.pkg_graph.specs.ModuleFiles.PathLists.{AreDistinct};
ghost use Rattle.pkg_graph.specs.ImportOrder.Numbers.{AreLinks, is_marked, Reaches};
ghost use Rattle.pkg_graph.specs.Views.{AreNumbersBelow};
ghost use Rattle.pkg_graph.specs.GraphFaults.{named_by, unnamed_in, internal_in, mixed_in};
ghost use Rattle.pkg_graph.specs.GraphFaults.{IsMixedError, IsNamedError, IsInternalError, IsCycleError};

use crate::homes::Homes;
use crate::import_order::cycles::least_on_cycle;
use crate::import_order::rows::Rows;
use crate::imports::Import;
use crate::module_files::paths::Paths;
use crate::module_files::{GraphError, may_import};
use crate::packages::SourceTree;
use go_tree::Text;
use std::alloc::Global;

/// Whether the path names a package other than `main`.
fn is_named(homes: &Homes, path: &[u8]) -> bool
    requires { length homes.now.names.items ≡ length homes.now.paths }
    ensures { result ≡ named_by homes.now.paths homes.now.names.items path.now }
{
    match homes.paths.number(path) {
        Some(number) => homes.names[number].items() != b"main".as_slice(),
        None => false,
    }
}

/// Each import names a package other than `main`.
pub(crate) fn check_named(
    alloc: Global,
    imports: &[Import],
    homes: &Homes,
) -> Result<(), GraphError>
    requires { length homes.now.names.items ≡ length homes.now.paths }
    ensures named { OnOk result (unnamed_in homes.now imports.now ≡ None) }
    ensures cause { IfErr result (IsNamedError (unnamed_in homes.now imports.now)) }
{
    for import in imports {
        if !is_named(homes, import.spec.path.items()) {
            return Err(GraphError::NoPackage {
                file: import.file,
                at: import.spec.span.start,
                path: Text::copied(alloc, import.spec.path.items())?,
            });
        }
    }
    Ok(())
}

/// Each import may be imported from where it stands.
pub(crate) fn check_visible(alloc: Global, imports: &[Import]) -> Result<(), GraphError>
    ensures visible { OnOk result (internal_in imports.now ≡ None) }
    ensures cause { IfErr result (IsInternalError (internal_in imports.now)) }
{
    for import in imports {
        if !may_import(import.from, import.spec.path.items()) {
            return Err(GraphError::Internal {
                file: import.file,
                at: import.spec.span.start,
                path: Text::copied(alloc, import.spec.path.items())?,
            });
        }
    }
    Ok(())
}

/// The files of a folder have one package name.
pub(crate) fn check_names(files: &[SourceTree], homes: &Homes) -> Result<(), GraphError>
    requires count { length files.now < 2 ^ 32 }
    requires numbers { length homes.now.numbers.items ≡ length files.now }
    requires within { AreNumbersBelow (length homes.now.names.items) files.now homes.now }
    ensures one_name { OnOk result (mixed_in homes.now files.now ≡ None) }
    ensures cause { IfErr result (IsMixedError (mixed_in homes.now files.now)) }
{
    for (i, file) in files.iter().enumerate() {
        if file.tree.package.name.items() != homes.names[homes.numbers[i]].items() {
            return Err(GraphError::MixedPackage {
                file: i as u32,
                at: file.tree.package.span.start,
            });
        }
    }
    Ok(())
}

/// No package lies on a cycle of imports.
pub(crate) fn check_cycles(
    alloc: Global,
    paths: &Paths,
    links: &Rows,
    marks: &[bool],
) -> Result<(), GraphError>
    requires distinct { AreDistinct paths.now }
    requires within { AreLinks links.now }
    requires rows { length links.now ≡ length paths.now }
    requires marks { length marks.now ≡ length paths.now }
    requires off { (k : ℕ) → is_marked marks.now k ≡ true → Reaches links.now k k → ⊥ }
    ensures none { OnOk result ((k : ℕ) → Reaches links.now k k → ⊥) }
    ensures cause { IfErr result (IsCycleError paths.now links.now) }
{
    match least_on_cycle(alloc, paths, links, marks)? {
        Some(k) => Err(GraphError::Cycle(Text::copied(alloc, paths.path(k))?)),
        None => Ok(()),
    }
}
