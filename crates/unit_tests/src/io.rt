//! The folder and the sink in memory, over which gofix_cli's tests run the top call: what they have room for, and what
//! they are made of.

ghost use Rattle.std.specs.Prelude.{◌≡◌, ◌<◌, length};
ghost use Rattle.fix_io.specs.MemTree.{mem_listed};

use fix_io::{MemFile, MemSink, MemTree, Sink, Tree, write_all};
use std::alloc::Global;
use std::test::Fail;

fn file(alloc: Global, path: &str, text: &str) -> Result<MemFile, Fail> {
    let path = String::from_str(alloc, path)?;
    let bytes = text.as_bytes().to_vec(alloc)?;
    Ok(MemFile { path, bytes })
}

/// Two files out of order, in a tree with room for four bytes in each.
fn small_tree(alloc: Global) -> Result<MemTree, Fail> {
    let files = vec![in alloc; file(alloc, "sub/b", "12345")?, file(alloc, "a.go", "")?]?;
    if !MemTree::distinct(&files) || files.len() > 2 {
        return Err(Fail::new("two paths"));
    }
    Ok(MemTree::new(alloc, files, 4, Vec::new(alloc))?)
}

fn expect(same: bool, what: &str) -> Result<(), Fail> {
    if same { Ok(()) } else { Err(Fail::new(what)) }
}

/// Whether these bytes are read, where at most so many are.
fn reads<T: Tree>(alloc: Global, tree: &mut T, i: u32, max: u32, want: &[u8]) -> bool
    requires { i < length (T.listed tree.old) }
    ensures { T.listed tree.new ≡ T.listed tree.old }
{
    match tree.read(alloc, i, max) {
        Ok(bytes) => bytes.as_slice() == want,
        Err(_) => false,
    }
}

/// Reads and replaces the second of two files, for which there is room for four bytes.
fn replace_second(alloc: Global, tree: &mut MemTree) -> bool
    requires { 1 < length (mem_listed tree.old) }
{
    reads(alloc, tree, 1, 3, b"123")
        && tree.replace(1, b"no room").is_err()
        && reads(alloc, tree, 1, 9, b"12345")
        && tree.replace(1, b"new").is_ok()
}

fn replace_in_turn(alloc: Global, tree: &mut MemTree) -> Result<(), Fail> {
    expect(tree.count() == 0, "nothing is listed")?;
    tree.list(alloc)?;
    if tree.count() != 2 {
        return Err(Fail::new("two files are listed"));
    }
    expect(
        tree.path(0) == "a.go" && tree.path(1) == "sub/b",
        "by their paths",
    )?;
    expect(replace_second(alloc, tree), "the second is replaced")?;
    if tree.count() != 2 {
        return Err(Fail::new("two files are left"));
    }
    expect(
        tree.bytes(0).is_empty() && tree.bytes(1) == b"new".as_slice(),
        "their bytes",
    )
}

#[test]
fn lists_reads_and_replaces(rt: HostRuntime) -> Result<(), Fail> {
    let alloc = rt.alloc();
    let mut tree = small_tree(alloc)?;
    replace_in_turn(alloc, &mut tree)
}

#[test]
fn refuses_one_path_twice(rt: HostRuntime) -> Result<(), Fail> {
    let alloc = rt.alloc();
    let mut files = Vec::new(alloc);
    for (path, text) in [("a", "1"), ("b", "2"), ("a", "3")] {
        files.push(file(alloc, path, text)?)?;
    }
    expect(!MemTree::distinct(&files), "one path twice")
}

fn write_in_turn(out: &mut MemSink) -> bool {
    out.write(b"abcd") == Ok(3)
        && out.write(b"d").is_err()
        && write_all(out, b"de").is_ok()
        && write_all(out, b"fgh").is_err()
        && out.bytes() == b"abcdefg".as_slice()
}

#[test]
fn takes_pieces_up_to_its_room(rt: HostRuntime) -> Result<(), Fail> {
    let alloc = rt.alloc();
    let mut out = MemSink::new(alloc, 7, 3, vec![in alloc; 1u64]?)?;
    expect(write_in_turn(&mut out), "pieces up to the room")
}
