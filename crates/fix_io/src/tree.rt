//! A tree of files.

ghost use Rattle.std.specs.Prelude.{◌≡◌, ℕ, ◌<◌, ◌≤◌, List, [], length, take, slice_index_or, IfOk};
ghost use Rattle.std.specs.Prelude.{OnOk, OnErr, IfSome, vec_len};
ghost use Rattle.std.specs.declared.option.Option.{Option};
ghost use Rattle.std.specs.Option.{option_map};
ghost use Rattle.fix_io.specs.declared.tree.Call.{Call};
ghost use Rattle.fix_io.specs.Files.{HeldFile, paths, bytes_at, with_bytes, IsAscending};
ghost use Rattle.fix_io.specs.Causes.{HasCause, HasPlainCause, last_failed, last_plain_failed};

use std::alloc::{AllocError, AllocFailed, Global};

/// A call of a tree that failed, with the number of its path.
#[derive(Clone, Copy, Debug, PartialEq, Eq, Drop)]
pub enum Call {
    List,
    Read(u32),
    Replace(u32),
}

/// Why `list` or `read` gives nothing: the outside failed, or memory was refused.
#[derive(Clone, Copy, Debug, PartialEq, Eq, Drop)]
pub enum TreeFault {
    Failed,
    NoMemory,
}

/// The outside failed.
#[derive(Clone, Copy, Debug, PartialEq, Eq, Drop)]
pub struct Failed;

/// A folder's files, whose paths are numbered from 0 in ascending order once they are listed.
pub trait Tree {
    /// The files by ascending path, or none where the tree doesn't tell its bytes.
    ghost held: { Self → Option (List HeldFile) };

    /// The paths that the last `list` found. There are none before the first.
    ghost listed: { Self → List (List ℕ) };

    /// How often the outside has failed. The count never falls, and stays at 2 ^ 64 - 1.
    ghost faults: { Self → ℕ };

    /// The call that failed last.
    ghost failed: { Self → Option Call };

    /// Finds the paths. Where it doesn't answer Ok, none is listed.
    fn list(&mut self, alloc: Global) -> Result<(), TreeFault>
        ensures ascending { OnOk result (IsAscending (listed self.new)) }
        ensures exact { OnOk result (IfSome (held self.new) (λ files. listed self.new ≡ paths files)) }
        ensures none { OnErr result (listed self.new ≡ []) }
        ensures same { held self.new ≡ held self.old }
        ensures cause { HasCause (faults self.old) (faults self.new) result }
        ensures named { failed self.new ≡ last_failed Call.List (failed self.old) result };

    /// How many paths are listed.
    fn count(&self) -> u32
        ensures { result ≡ length (listed self.now) };

    /// The path of a number.
    fn path(&self, i: u32) -> &str
        requires { i < length (listed self.now) }
        ensures { result.now ≡ slice_index_or (listed self.now) i [] };

    /// The first `max` bytes of a file, or all of them where there are fewer.
    fn read(&mut self, alloc: Global, i: u32, max: u32) -> Result<Vec<u8>, TreeFault>
        requires { i < length (listed self.old) }
        ensures bound { IfOk result (λ bytes. vec_len bytes ≤ max) }
        ensures bytes { IfOk result (λ bytes.
            IfSome (held self.old) (λ files. bytes.items ≡ take max (bytes_at files i))) }
        ensures same { held self.new ≡ held self.old }
        ensures paths { listed self.new ≡ listed self.old }
        ensures cause { HasCause (faults self.old) (faults self.new) result }
        ensures named { failed self.new ≡ last_failed (Call.Read i) (failed self.old) result };

    /// Makes the file's bytes the given ones. Where it fails, the file keeps its old ones.
    fn replace(&mut self, i: u32, bytes: &[u8]) -> Result<(), Failed>
        requires { i < length (listed self.old) }
        ensures ok { OnOk result (held self.new ≡ option_map (λ files. with_bytes files i bytes.now) (held self.old)) }
        ensures err { OnErr result (held self.new ≡ held self.old) }
        ensures paths { listed self.new ≡ listed self.old }
        ensures cause { HasPlainCause (faults self.old) (faults self.new) result }
        ensures named { failed self.new ≡ last_plain_failed (Call.Replace i) (failed self.old) result };
}

impl From<AllocError> for TreeFault {
    ghost use Rattle.fix_io.specs.declared.tree.TreeFault.TheVariants.{NoMemory};
    ghost use Rattle.std.specs.Prelude.{◌≡◌};

    ghost from_gives = { λ _ e. e ≡ NoMemory };

    fn from(_: AllocError) -> Self {
        TreeFault::NoMemory
    }
}

impl<T: Drop> From<AllocFailed<T>> for TreeFault {
    ghost use Rattle.fix_io.specs.declared.tree.TreeFault.TheVariants.{NoMemory};
    ghost use Rattle.std.specs.Prelude.{◌≡◌};

    ghost from_gives = { λ _ e. e ≡ NoMemory };

    fn from(_: AllocFailed<T>) -> Self {
        TreeFault::NoMemory
    }
}
