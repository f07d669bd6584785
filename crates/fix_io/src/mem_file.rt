//! A file in memory.

ghost use Rattle.std.specs.Prelude.{◌≡◌, ◌<◌, ◌≤◌, length, take, map, IfOk, OnOk, string_bytes};
ghost use Rattle.std.specs.List.{list_any};
ghost use Rattle.std.specs.Str.{bytes_eq};
ghost use Rattle.std.specs.Vec.{vec_capacity};
ghost use Rattle.fix_io.specs.MemTree.{held_file, held_files, path_of, AreDistinct, HaveRoom};
ghost use Rattle.fix_io.specs.Files.{IsAscending, paths};
ghost use Rattle.std.specs.List.Sorted.{IsPermutation, IsSortedByKey};
ghost use Rattle.std.specs.Cmp.Lexicographic.{slice_cmp};
ghost use Rattle.std.specs.Ordering.{nat_cmp};

use go_tree::NoMemory;
use std::alloc::{AllocError, Global};

/// A file of a tree in memory.
#[derive(Drop)]
pub struct MemFile {
    pub path: String,
    pub bytes: Vec<u8>,
}

// The first `max` bytes.
pub(crate) fn front(alloc: Global, bytes: &[u8], max: usize) -> Result<Vec<u8>, AllocError>
    ensures { IfOk result (λ v. v.items ≡ take max bytes.now) }
{
    if bytes.len() <= max {
        bytes.to_vec(alloc)
    } else {
        bytes[..max].to_vec(alloc)
    }
}

// Puts other bytes in the place of a file's, for which it has the room.
pub(crate) fn put(file: &mut MemFile, bytes: &[u8])
    requires { length bytes.now ≤ vec_capacity file.old.bytes }
    ensures bytes { file.new.bytes.items ≡ bytes.now }
    ensures path { string_bytes file.new.path ≡ string_bytes file.old.path }
    ensures room { vec_capacity file.old.bytes ≤ vec_capacity file.new.bytes }
{
    file.bytes.clear();
    match file.bytes.extend_from_slice(bytes) {
        Ok(()) => {}
        Err(_) => unreachable!(),
    }
}

pub(crate) fn has_path(files: &[MemFile], path: &str) -> bool
    ensures { result ≡ list_any (λ f. bytes_eq (string_bytes f.path) path.now) files.now }
{
    files.iter().any(|f| f.path.as_str() == path)
}

// Makes room for each file, and puts them in order.
pub(crate) fn make_ready(files: &mut [MemFile], room: usize) -> Result<(), NoMemory>
    requires { AreDistinct files.old }
    ensures moved { OnOk result (IsPermutation (held_files files.old) (held_files files.new)) }
    ensures ascending { OnOk result (IsAscending (paths (held_files files.new))) }
    ensures room { OnOk result (HaveRoom room files.new) }
{
    make_all_room(files, room)?;
    sort_by_path(files);
    Ok(())
}

fn make_all_room(files: &mut [MemFile], room: usize) -> Result<(), NoMemory>
    ensures same { map held_file files.new ≡ map held_file files.old }
    ensures room { OnOk result (HaveRoom room files.new) }
{
    for file in files.iter_mut() {
        make_room(file, room)?;
    }
    Ok(())
}

// Makes room for a file's other bytes.
fn make_room(file: &mut MemFile, room: usize) -> Result<(), NoMemory>
    ensures bytes { file.new.bytes.items ≡ file.old.bytes.items }
    ensures path { string_bytes file.new.path ≡ string_bytes file.old.path }
    ensures room { OnOk result (room ≤ vec_capacity file.new.bytes) }
{
    file.bytes.reserve(room)?;
    Ok(())
}

fn sort_by_path(files: &mut [MemFile])
    ensures moved { IsPermutation files.old files.new }
    ensures sorted { IsSortedByKey path_of (slice_cmp nat_cmp) files.new }
{
    files.sort_unstable_by(|a, b| a.path.as_str().cmp(b.path.as_str()));
}
