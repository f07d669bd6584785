//! Packages made from files.

ghost use Rattle.std.specs.Prelude.{◌≡◌, length, IfOk, OnOk};
ghost use Rattle.pkg_graph.specs.Views.{AreHomesOf, ArePackagesOf};
ghost use Rattle.pkg_graph.specs.Assembly.{HaveNoFiles};

use crate::homes::Homes;
use crate::packages::{Package, SourceList, SourceTree};
use go_tree::{Name, NoMemory, Text};
use std::alloc::Global;

/// The packages without their files.
pub(crate) fn empty_packages(alloc: Global, homes: &Homes) -> Result<Vec<Package>, NoMemory>
    requires { length homes.now.names.items ≡ length homes.now.paths }
    ensures { IfOk result (λ ps. HaveNoFiles homes.now ps.items) }
{
    let mut packages = Vec::new(alloc);
    for k in 0..homes.names.len() {
        packages.push(Package {
            path: Text::copied(alloc, homes.paths.path(k))?,
            name: Name::copied(alloc, homes.names[k].items())?,
            files: SourceList::of(Vec::new(alloc)),
        })?;
    }
    Ok(packages)
}

/// Puts the files into their packages.
pub(crate) fn place_files(
    module_path: &[u8],
    homes: &Homes,
    files: Vec<SourceTree>,
    packages: &mut Vec<Package>,
) -> Result<(), NoMemory>
    requires homes { AreHomesOf module_path.now files.items homes.now }
    requires empty { HaveNoFiles homes.now packages.old.items }
    ensures { OnOk result (ArePackagesOf module_path.now files.items packages.new.items) }
{
    let _ = module_path;
    let mut rest = files.into_iter();
    for number in &homes.numbers {
        let Some(file) = rest.next() else {
            return Ok(());
        };
        packages[*number].files.add(file)?;
    }
    Ok(())
}
