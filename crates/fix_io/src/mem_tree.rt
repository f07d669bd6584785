//! A tree in memory, whose calls fail as they are told to.

ghost use Rattle.std.specs.Prelude.{◌≡◌, ◌⊎◌, ◌↔◌, ◌<◌, ◌≤◌, ◌^◌, List, [], length};
ghost use Rattle.std.specs.Prelude.{take, Contains, IfOk, OnOk, OnErr, IsErr, IsErrOf, IsOkUnless, vec_len, Some, None};
ghost use Rattle.std.specs.Prelude.{Option, false};
ghost use Rattle.std.specs.Bool.{MatchBool};
ghost use Rattle.std.specs.List.Sorted.{IsPermutation};
ghost use Rattle.fix_io.specs.declared.tree.Call.{Call};
ghost use Rattle.fix_io.specs.Files.{paths, bytes_at, with_bytes, IsAscending};
ghost use Rattle.fix_io.specs.Causes.{HasCause, HasPlainCause, last_failed, last_plain_failed, one_more, counted};
ghost use Rattle.fix_io.specs.Causes.{plain_counted};

use crate::calls::Calls;
use crate::mem_file::{MemFile, front, has_path, make_ready, put};
use crate::tree::{Call, Failed, Tree, TreeFault};
use go_tree::NoMemory;
use std::alloc::Global;
use std::marker::Model;

/// A tree in memory. Its calls of `list`, `read` and `replace` are numbered from 0 together, and those
/// with chosen numbers fail.
#[derive(Drop)]
pub struct MemTree {
    files: Vec<MemFile>,
    listed: bool,
    room: usize,
    calls: Calls,
    failed: Option<Call>,
}

impl Model for MemTree {
    ghost use Rattle.std.specs.Prelude.{◌<◌, ◌^◌, length};
    ghost use Rattle.fix_io.specs.MemTree.{MemState, held_files, HaveRoom};
    ghost use Rattle.fix_io.specs.Files.{IsAscending, paths};

    ghost Value = { MemState };

    ghost view = { λ t. record {
      files = held_files t.files.items;
      listed = t.listed;
      room = t.room;
      next = t.calls.next;
      fails = t.calls.fails.items;
      faults = t.calls.faults;
      failed = t.failed;
    } };

    ghost invariant = { λ t. IsAscending (paths (held_files t.files.items)) × HaveRoom t.room t.files.items
        × (length t.files.items < 2 ^ 32) };
}

impl MemTree {
    ghost use Rattle.fix_io.specs.MemTree.{held_files, AreDistinct};

    /// Whether no two of the files have one path.
    pub fn distinct(files: &[MemFile]) -> bool
        ensures { MatchBool result (AreDistinct files.now) (¬ AreDistinct files.now) }
    {
        let mut i = files.len();
        while i > 0 {
            i -= 1;
            if has_path(&files[i + 1..], files[i].path.as_str()) {
                return false;
            }
        }
        true
    }

    /// A tree of these files, none of them listed, with room for `room` bytes in each, in which the
    /// calls with these numbers fail.
    pub fn new(
        _alloc: Global,
        mut files: Vec<MemFile>,
        room: usize,
        fails: Vec<u64>,
    ) -> Result<MemTree, NoMemory>
        requires distinct { AreDistinct files.items }
        requires few { vec_len files < 2 ^ 32 }
        ensures files { IfOk result (λ t. IsPermutation (held_files files.items) t.files) }
        ensures ascending { IfOk result (λ t. IsAscending (paths t.files)) }
        ensures told { IfOk result (λ t. (t.room ≡ room) × (t.fails ≡ fails.items)) }
        ensures fresh { IfOk result (λ t. (t.listed ≡ false) × (t.next ≡ 0) × (t.faults ≡ 0) × (t.failed ≡ None)) }
    {
        make_ready(&mut files, room)?;
        Ok(MemTree {
            files,
            listed: false,
            room,
            calls: Calls::new(fails),
            failed: None,
        })
    }

    /// What is held at the path of this number among all paths in ascending order, listed or not.
    pub fn bytes(&self, i: u32) -> &[u8]
        requires { i < length self.now.files }
        ensures { result.now ≡ bytes_at self.now.files i }
    {
        let files = self.files.as_slice();
        &files[i as usize].bytes
    }
}

impl Tree for MemTree {
    ghost use Rattle.fix_io.specs.MemTree.{mem_listed};

    ghost held = { λ t. Some t.files };

    ghost listed = { mem_listed };

    ghost faults = { λ t. t.faults };

    ghost failed = { λ t. t.failed };

    fn list(&mut self, _alloc: Global) -> Result<(), TreeFault>
        ensures ascending { OnOk result (IsAscending (mem_listed self.new)) }
        ensures exact { OnOk result (mem_listed self.new ≡ paths self.new.files) }
        ensures none { OnErr result (mem_listed self.new ≡ []) }
        ensures same { self.new.files ≡ self.old.files }
        ensures cause { HasCause self.old.faults self.new.faults result }
        ensures named { self.new.failed ≡ last_failed Call.List self.old.failed result }

        // It fails exactly where its number is one of those, and takes no memory.
        ensures fails { IsErrOf result TreeFault.Failed ↔ Contains self.old.fails self.old.next }
        ensures only { IsOkUnless result TreeFault.Failed }
        ensures counted { self.new.faults ≡ counted self.old.faults result }
        ensures next { self.new.next ≡ one_more self.old.next }
        ensures stays { (self.new.room ≡ self.old.room) × (self.new.fails ≡ self.old.fails) }
    {
        if self.calls.next_fails(false) {
            self.listed = false;
            self.failed = Some(Call::List);
            return Err(TreeFault::Failed);
        }
        self.listed = true;
        Ok(())
    }

    fn count(&self) -> u32
        ensures count { result ≡ length (mem_listed self.now) }
        ensures within { result ≤ length self.now.files }
    {
        if self.listed {
            self.files.len() as u32
        } else {
            0
        }
    }

    fn path(&self, i: u32) -> &str {
        let files = self.files.as_slice();
        files[i as usize].path.as_str()
    }

    fn read(&mut self, alloc: Global, i: u32, max: u32) -> Result<Vec<u8>, TreeFault>
        requires { i < length (mem_listed self.old) }
        ensures bound { IfOk result (λ bytes. vec_len bytes ≤ max) }
        ensures bytes { IfOk result (λ bytes. bytes.items ≡ take max (bytes_at self.old.files i)) }
        ensures same { self.new.files ≡ self.old.files }
        ensures paths { mem_listed self.new ≡ mem_listed self.old }
        ensures cause { HasCause self.old.faults self.new.faults result }
        ensures named { self.new.failed ≡ last_failed (Call.Read i) self.old.failed result }

        // It fails exactly where its number is one of those.
        ensures fails { IsErrOf result TreeFault.Failed ↔ Contains self.old.fails self.old.next }
        ensures counted { self.new.faults ≡ counted self.old.faults result }
        ensures next { self.new.next ≡ one_more self.old.next }
        ensures stays { (self.new.room ≡ self.old.room) × (self.new.fails ≡ self.old.fails) }
    {
        if self.calls.next_fails(false) {
            self.failed = Some(Call::Read(i));
            return Err(TreeFault::Failed);
        }
        Ok(front(alloc, &self.files[i as usize].bytes, max as usize)?)
    }

    fn replace(&mut self, i: u32, bytes: &[u8]) -> Result<(), Failed>
        requires { i < length (mem_listed self.old) }
        ensures ok { OnOk result (self.new.files ≡ with_bytes self.old.files i bytes.now) }
        ensures err { OnErr result (self.new.files ≡ self.old.files) }
        ensures paths { mem_listed self.new ≡ mem_listed self.old }
        ensures cause { HasPlainCause self.old.faults self.new.faults result }
        ensures named { self.new.failed ≡ last_plain_failed (Call.Replace i) self.old.failed result }

        // It fails exactly where there is no room or its number is one of those.
        ensures fails { IsErr result ↔ ((self.old.room < length bytes.now) ⊎ Contains self.old.fails self.old.next) }
        ensures counted { self.new.faults ≡ plain_counted self.old.faults result }
        ensures next { self.new.next ≡ one_more self.old.next }
        ensures stays { (self.new.room ≡ self.old.room) × (self.new.fails ≡ self.old.fails) }
    {
        if self.calls.next_fails(bytes.len() > self.room) {
            self.failed = Some(Call::Replace(i));
            return Err(Failed);
        }
        put(&mut self.files[i as usize], bytes);
        Ok(())
    }
}
