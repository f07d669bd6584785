//! The files below the working directory.

ghost use Rattle.std.specs.Prelude.{◌≡◌, ◌≤◌, IfOk, string_bytes, vec_len, ⊤};
ghost use Rattle.std.specs.Bool.{MatchBool};
ghost use Rattle.fix_io.specs.Entries.{entry_paths, joined};
ghost use Rattle.fix_io.specs.Files.{IsAscending};

use crate::entry::Entry;
use crate::folders::skipped_folder;
use crate::tree::TreeFault;
use std::alloc::{AllocError, Global};
use std::cmp::Ordering;
use std::fs::DirEntry;
use std::rt::Files;
use std::{fs, io};

/// How many entries of folders one walk may meet.
const MOST_ENTRIES: u32 = 1_048_576;

/// All files below the working directory, by ascending path, without those of skipped folders.
pub(crate) fn all_files<R: Files + AllocGlobal>(
    rt: &R,
    alloc: Global,
) -> Result<Vec<Entry>, TreeFault>
    ensures ascending { IfOk result (λ entries. IsAscending (entry_paths entries.items)) }
    ensures few { IfOk result (λ entries. vec_len entries ≤ MOST_ENTRIES) }
{
    let mut walk = Walk {
        alloc,
        entries: Vec::new(alloc),
        folders: Vec::new(alloc),
        met: 0,
    };
    walk.enter_all(rt)?;
    in_order(walk.entries)
}

/// The files by ascending path, unless they are too many or two have one path.
fn in_order(mut entries: Vec<Entry>) -> Result<Vec<Entry>, TreeFault>
    ensures ascending { IfOk result (λ entries. IsAscending (entry_paths entries.items)) }
    ensures few { IfOk result (λ entries. vec_len entries ≤ MOST_ENTRIES) }
{
    entries.sort_unstable_by(|a, b| a.path.as_str().cmp(b.path.as_str()));
    if entries.len() > MOST_ENTRIES as usize || !ascends(&entries) {
        return Err(TreeFault::Failed);
    }
    Ok(entries)
}

/// A walk that isn't done.
#[derive(Drop)]
struct Walk {
    alloc: Global,
    entries: Vec<Entry>,
    folders: Vec<String>,
    met: u32,
}

impl Walk {
    /// Takes each entry of the working directory and of the folders in it.
    fn enter_all<R: Files + AllocGlobal>(&mut self, rt: &R) -> Result<(), TreeFault> {
        self.enter(rt, "")?;
        // Each folder is one of the entries met.
        for _ in 0..MOST_ENTRIES {
            match self.folders.pop() {
                Some(folder) => self.enter(rt, &folder)?,
                None => break,
            }
        }
        Ok(())
    }

    /// Takes each entry of a folder.
    fn enter<R: Files + AllocGlobal>(&mut self, rt: &R, folder: &str) -> Result<(), TreeFault> {
        let place = if folder.is_empty() { "." } else { folder };
        for entry in fs::read_dir(&rt, place)? {
            self.meet(folder, entry)?;
        }
        Ok(())
    }

    /// Takes one entry, if it could be read.
    fn meet<R: Files + AllocGlobal>(
        &mut self,
        folder: &str,
        entry: io::Result<DirEntry<&R>>,
    ) -> Result<(), TreeFault> {
        self.take(folder, &entry?)
    }

    /// Takes one entry: a file is kept, a folder is left for later, and a link is neither.
    fn take<R: Files + AllocGlobal>(
        &mut self,
        folder: &str,
        entry: &DirEntry<&R>,
    ) -> Result<(), TreeFault> {
        if self.met >= MOST_ENTRIES {
            return Err(TreeFault::Failed);
        }
        self.met += 1;
        let kind = entry.file_type()?;
        if kind.is_dir() {
            self.leave(folder, entry.file_name())
        } else if kind.is_file() {
            self.keep(folder, entry.file_name())
        } else {
            Ok(())
        }
    }

    /// Leaves a folder for later, unless it is skipped.
    fn leave(&mut self, folder: &str, name: &str) -> Result<(), TreeFault> {
        if !skipped_folder(name) {
            self.folders.push(join(self.alloc, folder, name)?)?;
        }
        Ok(())
    }

    /// Keeps a file.
    fn keep(&mut self, folder: &str, name: &str) -> Result<(), TreeFault> {
        let path = join(self.alloc, folder, name)?;
        self.entries.push(Entry::new(self.alloc, path)?)?;
        Ok(())
    }
}

/// The path of a name in a folder, where the empty one is the working directory.
fn join(alloc: Global, folder: &str, name: &str) -> Result<String, AllocError>
    ensures { IfOk result (λ path. string_bytes path ≡ joined folder.now name.now) }
{
    let mut path = String::from_str(alloc, folder)?;
    if !folder.is_empty() {
        path.push('/')?;
    }
    path.push_str(name)?;
    Ok(path)
}

/// Whether each path is below the next.
fn ascends(entries: &[Entry]) -> bool
    ensures { MatchBool result (IsAscending (entry_paths entries.now)) ⊤ }
{
    for i in 1..entries.len() {
        match entries[i - 1].path.as_str().cmp(entries[i].path.as_str()) {
            Ordering::Less => {}
            Ordering::Equal | Ordering::Greater => return false,
        }
    }
    true
}
