//! The packages of a module in the order of their imports.

ghost use Rattle.std.specs.Prelude.{◌≡◌, ◌<◌, ◌^◌, length, slice_get, Some, IfOk, IfErr, OnOk};
ghost use Rattle.pkg_graph.specs.Graph.{Links};
ghost use Rattle.pkg_graph.specs.Views.{sources_of, AreHomesOf, ArePackagesOf, IsOrderOf};
ghost use Rattle.pkg_graph.specs.GraphFaults.{IsGraphFault};
ghost use Rattle.pkg_graph.specs.Assembly.{HaveNoFiles};

use crate::assembly::{empty_packages, place_files};
use crate::checks::{check_cycles, check_named, check_names, check_visible};
use crate::homes::{Homes, find_homes};
use crate::import_order::order::dependency_order;
use crate::imports::{find_imports, find_links};
use crate::module_files::{GraphError, Module};
use crate::packages::{Package, SourceTree};
use std::alloc::Global;

/// The order of the packages, where nothing is wrong with them.
fn find_order(
    alloc: Global,
    module_path: &[u8],
    files: &[SourceTree],
    homes: &Homes,
) -> Result<Vec<u32>, GraphError>
    requires count { length files.now < 2 ^ 32 }
    requires homes { AreHomesOf module_path.now files.now homes.now }
    ensures order { IfOk result (λ o. IsOrderOf module_path.now files.now o.items) }
    ensures links { OnOk result (Links module_path.now (sources_of files.now)) }
    ensures cause { IfErr result (IsGraphFault module_path.now (sources_of files.now)) }
{
    let _ = module_path;
    if let Err(error) = check_names(files, homes) {
        return Err(error);
    }
    let imports = find_imports(alloc, files, homes)?;
    if let Err(error) = check_named(alloc, &imports, homes) {
        return Err(error);
    }
    let links = find_links(alloc, &homes.paths, &imports)?;
    let placed = dependency_order(alloc, &homes.paths, &links)?;
    if let Err(error) = check_cycles(alloc, &homes.paths, &links, &placed.marks) {
        return Err(error);
    }
    if let Err(error) = check_visible(alloc, &imports) {
        return Err(error);
    }
    Ok(placed.order)
}

/// The packages of a module without their files, the number of each file's package, and the order.
#[derive(Drop)]
struct Plan {
    homes: Homes,
    packages: Vec<Package>,
    order: Vec<u32>,
}

/// The packages of files, which have no files yet, where nothing is wrong with them.
fn find_plan(alloc: Global, module_path: &[u8], files: &[SourceTree]) -> Result<Plan, GraphError>
    requires { length files.now < 2 ^ 32 }
    ensures homes { IfOk result (λ p. AreHomesOf module_path.now files.now p.homes) }
    ensures empty { IfOk result (λ p. HaveNoFiles p.homes p.packages.items) }
    ensures order { IfOk result (λ p. IsOrderOf module_path.now files.now p.order.items) }
    ensures links { OnOk result (Links module_path.now (sources_of files.now)) }
    ensures cause { IfErr result (IsGraphFault module_path.now (sources_of files.now)) }
{
    let homes = find_homes(alloc, module_path, files)?;
    let order = match find_order(alloc, module_path, files, &homes) {
        Ok(order) => order,
        Err(error) => return Err(error),
    };
    let packages = empty_packages(alloc, &homes)?;
    Ok(Plan {
        homes,
        packages,
        order,
    })
}

/// The packages of a module, and their order.
#[derive(Drop)]
pub struct Graph {
    pub(crate) packages: Vec<Package>,
    pub(crate) order: Vec<u32>,
}

/// The packages of the files of a module, one for each folder, in the order of their first files.
///
/// `MixedPackage` comes exactly where a file's package name differs from that of the first file of
/// its folder; else `NoPackage` where an import path names no package or one named `main`; else
/// `Cycle`, with the least path on a cycle, where imports form one; else `Internal` where an import
/// isn't allowed. Each names the first such place.
pub fn build(alloc: Global, home: &Module, files: Vec<SourceTree>) -> Result<Graph, GraphError>
    requires { length files.items < 2 ^ 32 }
    ensures packages { IfOk result (λ g. ArePackagesOf home.now.path files.items g.packages.items) }
    ensures order { IfOk result (λ g. IsOrderOf home.now.path files.items g.order.items) }
    ensures links { OnOk result (Links home.now.path (sources_of files.items)) }
    ensures cause { IfErr result (IsGraphFault home.now.path (sources_of files.items)) }
{
    let path = home.path.items();
    match find_plan(alloc, path, &files) {
        Ok(mut plan) => {
            place_files(path, &plan.homes, files, &mut plan.packages)?;
            Ok(Graph {
                packages: plan.packages,
                order: plan.order,
            })
        }
        Err(error) => Err(error),
    }
}

impl Graph {
    /// The numbers of the packages in the order of their imports: each time the least path whose
    /// imports are all placed.
    pub fn order(&self) -> &[u32]
        ensures { result.now ≡ self.now.order.items }
    {
        &self.order
    }

    /// The packages by their numbers.
    pub fn packages(&self) -> &[Package]
        ensures { result.now ≡ self.now.packages.items }
    {
        &self.packages
    }

    /// The packages by their numbers, of which the graph is made.
    pub fn into_packages(self) -> Vec<Package>
        ensures { result.items ≡ self.packages.items }
    {
        let Graph { packages, .. } = self;
        packages
    }

    /// The package with this number.
    pub fn package(&self, i: u32) -> &Package
        requires { i < length self.now.packages.items }
        ensures { slice_get self.now.packages.items i ≡ Some result.now }
    {
        &self.packages[i as usize]
    }
}
