//! The source files of a folder, or the line of gofix that says why they can't be had.

ghost use Rattle.std.specs.Prelude.{◌≤◌, All, IfOk, length};

use fix_io::{Failed, Sink, Tree, TreeFault, write_all};
use folder_reading::{FolderFault, MAX_FILES, read_folder};
use go_tree::MAX_FILE_BYTES;
use refusals::{Detail, Refusal, write_refusal};
use source_files::SourceFile;
use std::alloc::Global;

/// Why a module isn't shown. A number is that of a listed path.
#[derive(Drop)]
pub(crate) enum Unread {
    List,
    File(u32),
    Refused(Refusal),
    NoMemory,
}

/// The refusal of a listed file that is too large, or of all.
fn too_big(file: Option<u32>) -> Unread {
    Unread::Refused(Refusal {
        file,
        place: None,
        detail: Detail::TooBig,
    })
}

/// Why the files of a folder aren't read.
fn of_folder(fault: FolderFault) -> Unread {
    match fault {
        FolderFault::TooMany => too_big(None),
        FolderFault::Read(i) => Unread::File(i),
        FolderFault::TooLong(i) => too_big(Some(i)),
        FolderFault::NoMemory => Unread::NoMemory,
    }
}

/// Lists a folder, and reads the files in it that are selected.
pub(crate) fn source_files<T: Tree>(alloc: Global, tree: &mut T) -> Result<Vec<SourceFile>, Unread>
    ensures count { IfOk result (λ files. length files.items ≤ MAX_FILES) }
    ensures small { IfOk result (λ files. All (λ f. length f.bytes ≤ MAX_FILE_BYTES) files.items) }
{
    match tree.list(alloc) {
        Ok(()) => {}
        Err(TreeFault::Failed) => return Err(Unread::List),
        Err(TreeFault::NoMemory) => return Err(Unread::NoMemory),
    }
    match read_folder(alloc, tree) {
        Ok(files) => Ok(files),
        Err(fault) => Err(of_folder(fault)),
    }
}

/// The path of a listed file, if it is listed.
fn path_of<T: Tree>(tree: &T, file: Option<u32>) -> &[u8] {
    match file {
        Some(i) => {
            if i < tree.count() {
                tree.path(i).as_bytes()
            } else {
                b"".as_slice()
            }
        }
        None => b"".as_slice(),
    }
}

/// Writes the line that gofix writes of the same folder.
pub(crate) fn tell<T: Tree, S: Sink>(out: &mut S, tree: &T, unread: &Unread) -> Result<(), Failed> {
    match unread {
        Unread::List => write_all(out, b"gofix: can't list files\n"),
        Unread::File(i) => {
            write_all(out, b"gofix: can't read ")?;
            write_all(out, path_of(tree, Some(*i)))?;
            write_all(out, b"\n")
        }
        Unread::Refused(refusal) => write_refusal(out, refusal, path_of(tree, refusal.file)),
        Unread::NoMemory => write_all(out, b"gofix: out of memory\n"),
    }
}
