//! The selected files of a folder.

ghost use Rattle.std.specs.Prelude.{◌≡◌, ◌≤◌, ◌<◌, ◌^◌, length, All, IfOk, IfErr, OnOk};
ghost use Rattle.fix_io.specs.Causes.{Rose};
ghost use Rattle.pkg_graph.specs.ModuleFiles.Selected.{selected};
ghost use Rattle.folder_reading.specs.Limits.{AreFew, AreRead};
ghost use Rattle.folder_reading.specs.Sources.{AreOctets};
ghost use Rattle.folder_reading.specs.Causes.{IfQuiet, IsQuiet, StopsFolder};

use crate::faults::FolderFault;
use crate::limits::MAX_FILES;
use crate::reading::read_files;
use fix_io::Tree;
use go_tree::{NoMemory, Text};
use pkg_graph::module_files::selected;
use source_files::SourceFile;
use std::alloc::Global;

/// Bytes are octets.
fn bytes_are_octets(bytes: &[u8])
    ensures { AreOctets bytes.now }
{}

/// The listed paths.
fn listed_paths<T: Tree>(alloc: Global, tree: &T) -> Result<Vec<Text>, NoMemory>
    ensures count { IfOk result (λ paths. length paths.items < 2 ^ 32) }
    ensures listed { IfOk result (λ paths. paths.items ≡ T.listed tree.now) }
    ensures octets { OnOk result (All AreOctets (T.listed tree.now)) }
{
    let mut paths = Vec::new(alloc);
    for i in 0..tree.count() {
        let path = tree.path(i).as_bytes();
        bytes_are_octets(path);
        let text = Text::copied(alloc, path)?;
        paths.push(text)?;
    }
    Ok(paths)
}

/// Reads the selected files of a folder that is listed, each once and in order; all listed paths are octets. `TooMany`
/// comes before any file is read; `Read` and `TooLong` name the first file that can't be read or passes a limit.
pub fn read_folder<T: Tree>(alloc: Global, tree: &mut T) -> Result<Vec<SourceFile>, FolderFault>
    ensures octets { OnOk result (All AreOctets (T.listed tree.old)) }
    ensures few { OnOk result (AreFew (T.listed tree.old)) }
    ensures files { IfOk result
        (λ sources. AreRead (T.held tree.old) (T.listed tree.old) (selected (T.listed tree.old)) sources.items) }
    ensures stop { IfErr result
        (λ e. StopsFolder e (Rose (T.faults tree.old) (T.faults tree.new)) (T.failed tree.new)
        (T.held tree.old) (T.listed tree.old)) }
    ensures same { T.held tree.new ≡ T.held tree.old }
    ensures paths { T.listed tree.new ≡ T.listed tree.old }
    ensures later { T.faults tree.old ≤ T.faults tree.new }
    ensures quiet { IfQuiet result
        (IsQuiet (T.faults tree.old) (T.faults tree.new) (T.failed tree.old) (T.failed tree.new)) }
{
    let paths = listed_paths(alloc, tree)?;
    let numbers = selected(alloc, &paths)?;
    if numbers.len() > MAX_FILES as usize {
        return Err(FolderFault::TooMany);
    }
    read_files(alloc, tree, &numbers)
}
