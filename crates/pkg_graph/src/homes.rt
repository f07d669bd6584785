//! The folders of files, and the packages that they make.

ghost use Rattle.std.specs.Prelude.{◌≡◌, IfOk, OnOk};
ghost use Rattle.pkg_graph.specs.ModuleFiles.Pieces.{folder_of};
ghost use Rattle.pkg_graph.specs.Package.{import_path};
ghost use Rattle.pkg_graph.specs.ModuleFiles.PathLists.{with_path};
ghost use Rattle.pkg_graph.specs.Views.{AreHomesOf, names_after, AddsNumberTo};

use crate::module_files::folders::folder_and_name;
use crate::module_files::paths::Paths;
use crate::packages::SourceTree;
use go_tree::{Name, NoMemory};
use std::alloc::Global;

/// The import path of the package that the file with this path belongs to.
pub(crate) fn home_of(alloc: Global, module_path: &[u8], path: &[u8]) -> Result<Vec<u8>, NoMemory>
    ensures { IfOk result (λ home. home.items ≡ import_path module_path.now (folder_of path.now)) }
{
    let (folder, _) = folder_and_name(path);
    let mut home = module_path.to_vec(alloc)?;
    if !folder.is_empty() {
        home.push(b'/')?;
        home.extend_from_slice(folder)?;
    }
    Ok(home)
}

/// The packages of files by their numbers: their paths, their names, and for each file the number of
/// its package.
#[derive(Drop)]
pub(crate) struct Homes {
    pub(crate) paths: Paths,
    pub(crate) names: Vec<Name>,
    pub(crate) numbers: Vec<usize>,
}

impl Homes {
    /// Adds the next file, by the path of its package and the name in its package clause.
    fn add(&mut self, alloc: Global, home: Vec<u8>, name: &[u8]) -> Result<(), NoMemory>
        ensures paths { OnOk result (self.new.paths ≡ with_path self.old.paths home.items) }
        ensures names { OnOk result (self.new.names.items ≡ names_after self.old home.items name.now) }
        ensures numbers { OnOk result (AddsNumberTo self.old self.new home.items) }
    {
        let (number, is_new) = self.paths.add(home)?;
        if is_new {
            self.names.push(Name::copied(alloc, name)?)?;
        }
        self.numbers.push(number)?;
        Ok(())
    }
}

/// The packages of the files.
pub(crate) fn find_homes(
    alloc: Global,
    module_path: &[u8],
    files: &[SourceTree],
) -> Result<Homes, NoMemory>
    ensures { IfOk result (AreHomesOf module_path.now files.now) }
{
    let mut homes = Homes {
        paths: Paths::new(alloc),
        names: Vec::new(alloc),
        numbers: Vec::new(alloc),
    };
    for file in files {
        let home = home_of(alloc, module_path, file.path.items())?;
        homes.add(alloc, home, file.tree.package.name.items())?;
    }
    Ok(homes)
}
