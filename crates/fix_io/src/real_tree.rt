//! The working directory.

ghost use Rattle.std.specs.Prelude.{◌≡◌, ◌<◌, ◌≤◌, ◌^◌, [], IfOk, None, vec_len, Some};
ghost use Rattle.fix_io.specs.Causes.{one_more};

use crate::entry::Entry;
use crate::tree::{Call, Failed, Tree, TreeFault};
use crate::walk::all_files;
use go_tree::NoMemory;
use std::alloc::Global;
use std::fs::{File, OpenFile};
use std::io::{ErrorKind, Read, Write};
use std::marker::Model;
use std::rt::Files;
use std::{fs, io};

/// How many bytes of a file are read at once.
const PIECE: usize = 4096;

/// The files below the working directory, without those of skipped folders. It doesn't tell their bytes.
#[derive(Drop)]
pub struct RealTree<'a, R: Files + AllocGlobal> {
    rt: &'a R,
    alloc: Global,
    entries: Vec<Entry>,
    faults: u64,
    failed: Option<Call>,
}

impl<'a, R: Files + AllocGlobal> Model for RealTree<'a, R> {
    ghost use Rattle.std.specs.Prelude.{◌<◌, ◌^◌, vec_len};
    ghost use Rattle.fix_io.specs.Entries.{entry_paths};
    ghost use Rattle.fix_io.specs.RealTree.{RealState};

    ghost Value = { RealState };

    ghost view = { λ t. record { listed = entry_paths t.entries.items; faults = t.faults; failed = t.failed } };

    ghost invariant = { λ t. vec_len t.entries < 2 ^ 32 };
}

impl<'a, R: Files + AllocGlobal> RealTree<'a, R> {
    /// The working directory, of which no file is listed.
    pub fn new(rt: &'a R, alloc: Global) -> Result<RealTree<'a, R>, NoMemory>
        ensures unlisted { IfOk result (λ t. t.listed ≡ []) }
        ensures fresh { IfOk result (λ t. (t.faults ≡ 0) × (t.failed ≡ None)) }
    {
        Ok(RealTree {
            rt,
            alloc,
            entries: Vec::new(alloc),
            faults: 0,
            failed: None,
        })
    }

    /// Counts a fault, and remembers the call.
    fn raise(&mut self, call: Call)
        ensures faults { self.new.faults ≡ one_more self.old.faults }
        ensures later { self.old.faults ≤ self.new.faults }
        ensures failed { self.new.failed ≡ Some call }
        ensures listed { self.new.listed ≡ self.old.listed }
    {
        self.faults = self.faults.saturating_add(1);
        self.failed = Some(call);
    }
}

impl<'a, R: Files + AllocGlobal> Tree for RealTree<'a, R> {
    ghost held = { λ t. None };

    ghost listed = { λ t. t.listed };

    ghost faults = { λ t. t.faults };

    ghost failed = { λ t. t.failed };

    fn list(&mut self, alloc: Global) -> Result<(), TreeFault> {
        self.entries = Vec::new(self.alloc);
        match all_files(self.rt, alloc) {
            Ok(entries) => {
                self.entries = entries;
                Ok(())
            }
            Err(TreeFault::NoMemory) => Err(TreeFault::NoMemory),
            Err(TreeFault::Failed) => {
                self.raise(Call::List);
                Err(TreeFault::Failed)
            }
        }
    }

    fn count(&self) -> u32 {
        self.entries.len() as u32
    }

    fn path(&self, i: u32) -> &str {
        self.entries[i as usize].path.as_str()
    }

    fn read(&mut self, alloc: Global, i: u32, max: u32) -> Result<Vec<u8>, TreeFault> {
        let path = self.entries[i as usize].path.as_str();
        match read_front(self.rt, alloc, path, max as usize) {
            Ok(bytes) => Ok(bytes),
            Err(TreeFault::NoMemory) => Err(TreeFault::NoMemory),
            Err(TreeFault::Failed) => {
                self.raise(Call::Read(i));
                Err(TreeFault::Failed)
            }
        }
    }

    fn replace(&mut self, i: u32, bytes: &[u8]) -> Result<(), Failed> {
        match exchange(self.rt, &self.entries[i as usize], bytes) {
            Ok(()) => Ok(()),
            Err(_) => {
                self.raise(Call::Replace(i));
                Err(Failed)
            }
        }
    }
}

/// The first `max` bytes of a file.
fn read_front<R: Files>(rt: &R, alloc: Global, path: &str, max: usize) -> Result<Vec<u8>, TreeFault>
    ensures { IfOk result (λ bytes. vec_len bytes ≤ max) }
{
    let mut file = fs::open(rt, path)?;
    let mut bytes = Vec::new(alloc);
    let mut piece = [0u8; PIECE];
    for _ in 0..u64::MAX {
        let want = piece.len().min(max - bytes.len());
        if want == 0 {
            break;
        }
        let count = file.read(&mut piece[..want])?;
        if count == 0 {
            break;
        }
        bytes.extend_from_slice(&piece[..count])?;
    }
    Ok(bytes)
}

/// Writes a new file beside the old one, and puts it in its place. Builds no text. Where that fails, the new file goes.
fn exchange<R: Files>(rt: &R, entry: &Entry, bytes: &[u8]) -> io::Result<()> {
    let fresh = entry.fresh.as_str();
    // What an earlier call left, or a link, is never written through.
    if fs::exists(rt, fresh)? {
        fs::remove_file(rt, fresh)?;
    }
    match write_fresh(rt, entry, bytes) {
        Ok(()) => Ok(()),
        Err(e) => {
            // Its own failure says no more than the first.
            match fs::remove_file(rt, fresh) {
                Ok(()) | Err(_) => Err(e),
            }
        }
    }
}

/// Writes the new file with the old one's permission bits, and moves it once its bytes are on the disk.
fn write_fresh<R: Files>(rt: &R, entry: &Entry, bytes: &[u8]) -> io::Result<()> {
    let permissions = fs::metadata(rt, entry.path.as_str())?.permissions();
    let mut file = File::create_new(rt, entry.fresh.as_str())?;
    file.set_permissions(permissions)?;
    file.write_all(bytes)?;
    file.sync_all()?;
    drop(file);
    fs::rename(rt, entry.fresh.as_str(), entry.path.as_str())
}

/// A host call that failed, or that was refused memory.
impl From<io::Error> for TreeFault {
    ghost use Rattle.fix_io.specs.declared.tree.TreeFault.TheVariants.{NoMemory};
    ghost use Rattle.std.specs.Prelude.{◌≡◌, ◌↔◌};
    ghost use Rattle.std.specs.IoError.{error_kind};
    ghost use Rattle.std.specs.declared.io.ErrorKind.TheVariants.{OutOfMemory};

    ghost from_gives = { λ e fault. (fault ≡ NoMemory) ↔ (error_kind e ≡ OutOfMemory) };

    fn from(e: io::Error) -> Self {
        if e.kind() == ErrorKind::OutOfMemory {
            TreeFault::NoMemory
        } else {
            TreeFault::Failed
        }
    }
}
