//! Reading the files of a folder by their numbers.

ghost use Rattle.std.specs.Prelude.{◌≡◌, ◌+◌, ◌<◌, ◌≤◌, length, All, IfOk, IfErr, OnOk};
ghost use Rattle.fix_io.specs.Causes.{Rose};
ghost use Rattle.folder_reading.specs.Sources.{IsSource};
ghost use Rattle.folder_reading.specs.Limits.{AreRead};
ghost use Rattle.folder_reading.specs.Causes.{FailsToRead, IfQuiet, IsQuiet, StopsReading};

use crate::faults::FolderFault;
use crate::limits::add_bytes;
use fix_io::{Tree, TreeFault};
use go_tree::{MAX_FILE_BYTES, Text};
use source_files::SourceFile;
use std::alloc::Global;

/// Reads one file, up to one byte more than the limit.
fn read_file<T: Tree>(alloc: Global, tree: &mut T, i: u32) -> Result<SourceFile, FolderFault>
    requires { i < length (T.listed tree.old) }
    ensures file { IfOk result (λ f. IsSource (T.held tree.old) (T.listed tree.old) i f) }
    ensures stop { IfErr result (λ e. FailsToRead e i (Rose (T.faults tree.old) (T.faults tree.new)) (T.failed tree.new)) }
    ensures same { T.held tree.new ≡ T.held tree.old }
    ensures paths { T.listed tree.new ≡ T.listed tree.old }
    ensures later { T.faults tree.old ≤ T.faults tree.new }
    ensures quiet { IfQuiet result
        (IsQuiet (T.faults tree.old) (T.faults tree.new) (T.failed tree.old) (T.failed tree.new)) }
{
    match tree.read(alloc, i, MAX_FILE_BYTES + 1) {
        Ok(bytes) => {
            let path = tree.path(i).as_bytes().to_vec(alloc)?;
            Ok(SourceFile {
                index: i,
                path: Text::of(path),
                bytes: Text::of(bytes),
            })
        }
        Err(TreeFault::Failed) => Err(FolderFault::Read(i)),
        Err(TreeFault::NoMemory) => Err(FolderFault::NoMemory),
    }
}

/// Reads the files of these numbers in order, up to the first that stops it.
pub(crate) fn read_files<T: Tree>(
    alloc: Global,
    tree: &mut T,
    numbers: &[u32],
) -> Result<Vec<SourceFile>, FolderFault>
    requires { All (λ i. i < length (T.listed tree.old)) numbers.now }
    ensures files { IfOk result
        (λ sources. AreRead (T.held tree.old) (T.listed tree.old) numbers.now sources.items) }
    ensures stop { IfErr result
        (λ e. StopsReading e (Rose (T.faults tree.old) (T.faults tree.new)) (T.failed tree.new)
        (T.held tree.old) (T.listed tree.old) numbers.now) }
    ensures same { T.held tree.new ≡ T.held tree.old }
    ensures paths { T.listed tree.new ≡ T.listed tree.old }
    ensures later { T.faults tree.old ≤ T.faults tree.new }
    ensures quiet { IfQuiet result
        (IsQuiet (T.faults tree.old) (T.faults tree.new) (T.failed tree.old) (T.failed tree.new)) }
{
    let mut sources = Vec::new(alloc);
    let mut total = 0;
    for number in numbers {
        let source = read_file(alloc, tree, *number)?;
        total = match add_bytes(total, *number, source.bytes.items()) {
            Ok(sum) => sum,
            Err(fault) => return Err(fault),
        };
        sources.push(source)?;
    }
    Ok(sources)
}
