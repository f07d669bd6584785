//! The order of packages.

ghost use Rattle.std.specs.Prelude.{◌≡◌, ◌<◌, ◌^◌, length, map, IfOk};
ghost use Rattle.pkg_graph.specs.ModuleFiles.PathLists.{AreDistinct};
ghost use Rattle.pkg_graph.specs.Views.{package_view};
ghost use Rattle.run_rules.specs.Programs.{dependency_order};
ghost use Rattle.file_tables.specs.DependencyOrder.Links.{AreNamed};

use crate::dependency_order::links::{package_links, package_paths};
use go_tree::NoMemory;
use pkg_graph::Package;
use pkg_graph::import_order::order::dependency_order;
use std::alloc::Global;

/// The numbers of packages in the order of their imports: each time the one with the least path whose imports are all
/// placed (Go specification, Program initialization and execution). Each package has a path of its own, and each import
/// names one of them. An error where memory is refused. Each import is looked at three times at most.
pub fn package_order(alloc: Global, packages: &[Package]) -> Result<Vec<u32>, NoMemory>
    requires distinct { AreDistinct (map (λ p. p.path) packages.now) }
    requires named { AreNamed (map package_view packages.now) }
    requires small { length packages.now < 2 ^ 32 }
    ensures { IfOk result (λ order. order.items ≡ dependency_order (map package_view packages.now)) }
{
    let paths = package_paths(alloc, packages)?;
    let links = package_links(alloc, packages, &paths)?;
    let placed = dependency_order(alloc, &paths, &links)?;
    Ok(placed.order)
}
