//! The packages of files.

ghost use Rattle.std.specs.Prelude.{◌≡◌, IfOk, Some, map};
ghost use Rattle.name_walks.specs.Around.{place_in};
ghost use Rattle.pkg_graph.specs.ModuleFiles.Pieces.{folder_of};
ghost use Rattle.pkg_graph.specs.Package.{import_path};
ghost use Rattle.programs.specs.TextsOfPackages.Given.{home_path};

use file_names::Places;
use go_tree::NoMemory;
use module_texts::ScannedFile;
use pkg_graph::module_files::folders::folder_and_name;
use std::alloc::{AllocError, Global};

/// The import path of the package of the file with this path, in a module with this path.
fn package_path(alloc: Global, module_path: &[u8], path: &[u8]) -> Result<Vec<u8>, NoMemory>
    ensures { IfOk result (λ home. home.items ≡ import_path module_path.now (folder_of path.now)) }
{
    let (folder, _) = folder_and_name(path);
    let mut home = module_path.to_vec(alloc)?;
    if !folder.is_empty() {
        home.push(b'/')?;
        home.extend_from_slice(folder)?;
    }
    Ok(home)
}

/// For each file the number of its package; an error where none is its own, too.
pub(crate) fn file_numbers(
    alloc: Global,
    module_path: &[u8],
    places: &Places,
    files: &[ScannedFile],
) -> Result<Vec<usize>, NoMemory>
    ensures { IfOk result (λ numbers. map Some numbers.items
        ≡ map (λ s. place_in places.now (home_path module_path.now s)) files.now) }
{
    let mut numbers = Vec::new(alloc);
    for scanned in files {
        let path = package_path(alloc, module_path, scanned.file.path.items())?;
        let Some(number) = places.find(&path) else {
            return Err(AllocError);
        };
        numbers.push(number)?;
    }
    Ok(numbers)
}
