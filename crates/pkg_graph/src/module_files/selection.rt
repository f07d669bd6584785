//! Which files of a folder are read.

ghost use Rattle.std.specs.Prelude.{◌≡◌, ◌<◌, ◌^◌, ◌&&◌, not, length, IfOk, MatchOption, List, ℕ};
ghost use Rattle.pkg_graph.specs.ModuleFiles.PathLists.{has_path};
ghost use Rattle.pkg_graph.specs.ModuleFiles.Selected.{begins_hidden, is_skipped_folder, is_source_name, is_selected, selected};
ghost use Rattle.pkg_graph.specs.ModuleFiles.Selection.{IsModuleFile, IsNoModuleFile, AreModuleFolders, are_folders_read};

use crate::module_files::folders::folder_and_name;
use crate::module_files::paths::Paths;
use go_tree::{NoMemory, Text};
use std::alloc::Global;

/// The name begins with `_` or `.`.
fn begins_hidden(name: &[u8]) -> bool
    ensures { result ≡ begins_hidden name.now }
{
    match name {
        [byte, ..] => *byte == b'_' || *byte == b'.',
        [] => false,
    }
}

/// A folder of this name isn't entered.
fn is_skipped_folder(name: &[u8]) -> bool
    ensures { result ≡ is_skipped_folder name.now }
{
    name == b"testdata".as_slice() || name == b"vendor".as_slice() || begins_hidden(name)
}

/// A file of this name is a source file and isn't one of tests.
fn is_source_name(name: &[u8]) -> bool
    ensures { result ≡ is_source_name name.now }
{
    name.ends_with(b".go") && !name.ends_with(b"_test.go") && !begins_hidden(name)
}

/// The folder in which this path is a `go.mod`, other than the root.
fn module_folder(path: &[u8]) -> Option<&[u8]>
    ensures { MatchOption result (IsNoModuleFile path.now) (λ folder. IsModuleFile path.now folder.now) }
{
    path.strip_suffix(b"/go.mod")
}

/// The folders other than the root that hold a `go.mod`.
fn module_folders(alloc: Global, paths: &[Text]) -> Result<Paths, NoMemory>
    ensures { IfOk result (AreModuleFolders paths.now) }
{
    let mut folders = Paths::new(alloc);
    for path in paths {
        if let Some(folder) = module_folder(path.items()) {
            folders.add(folder.to_vec(alloc)?)?;
        }
    }
    Ok(folders)
}

/// A folder by its path and its name is entered, and is no module of its own.
fn is_read_folder(modules: &Paths, folder: &[u8], name: &[u8]) -> bool
    ensures { result ≡ (not (is_skipped_folder name.now) && not (has_path modules.now folder.now)) }
{
    !is_skipped_folder(name) && !modules.has(folder)
}

/// The folders around the file are entered, and none of them is a module of its own.
fn are_folders_read(modules: &Paths, path: &[u8]) -> bool
    ensures { (paths : List (List ℕ)) → AreModuleFolders paths modules.now → result ≡ are_folders_read paths path.now }
{
    let mut start = 0;
    for (i, byte) in path.iter().enumerate() {
        if *byte == b'/' {
            if !is_read_folder(modules, &path[..i], &path[start..i]) {
                return false;
            }
            start = i + 1;
        }
    }
    true
}

/// The file with this path is read.
fn is_selected(modules: &Paths, path: &[u8]) -> bool
    ensures { (paths : List (List ℕ)) → AreModuleFolders paths modules.now → result ≡ is_selected paths path.now }
{
    let (_, name) = folder_and_name(path);
    path == b"go.mod".as_slice() || (is_source_name(name) && are_folders_read(modules, path))
}

/// The numbers of the files that are read, among all paths: `go.mod` at the root and the source files
/// in folders that the go command enters, but for tests and for the files of other modules.
pub fn selected(alloc: Global, paths: &[Text]) -> Result<Vec<u32>, NoMemory>
    requires { length paths.now < 2 ^ 32 }
    ensures { IfOk result (λ numbers. numbers.items ≡ selected paths.now) }
{
    let modules = module_folders(alloc, paths)?;
    let mut numbers = Vec::new(alloc);
    for (i, path) in paths.iter().enumerate() {
        if is_selected(&modules, path.items()) {
            numbers.push(i as u32)?;
        }
    }
    Ok(numbers)
}
