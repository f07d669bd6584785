//! The marks of a file by the numbers of their declarations.

ghost use Rattle.std.specs.Prelude.{◌≡◌, ◌++◌, map, OnOk};
ghost use Rattle.std.specs.Option.{option_map};
ghost use Rattle.go_tree.specs.FileView.{file_of};
ghost use Rattle.directive_scan.specs.Marked.{good_marks, bad_marks};
ghost use Rattle.run_rules.specs.Marks.{found_in, marks_by_number};
ghost use Rattle.module_texts.specs.Files.{IsScanned};
ghost use Rattle.module_marks.specs.Views.{mark_ref_of, bad_at_of};

use crate::spans::declared_spans;
use directive_scan::{BadMark, Mark, marks};
use file_names::MarkRef;
use go_tree::scope_names::FileNames;
use go_tree::{FileTree, NoMemory, Text};
use module_texts::ScannedFile;
use pkg_graph::SourceTree;
use std::alloc::Global;

/// A mark that means nothing, with the path of its file.
#[derive(Drop)]
pub struct BadMarkAt {
    pub path: Text,
    pub mark: BadMark,
}

/// The marks of a module: the declared names that are marked, and the marks that mean nothing, each by package, file and
/// place.
#[derive(Drop)]
pub struct ModuleMarks {
    pub good: Vec<MarkRef>,
    pub bad: Vec<BadMarkAt>,
}

/// Adds the name, if there is one.
fn push_found(found: Option<MarkRef>, good: &mut Vec<MarkRef>) -> Result<(), NoMemory>
    ensures { OnOk result (map mark_ref_of good.new.items
        ≡ map mark_ref_of good.old.items ++ found_in (option_map mark_ref_of found)) }
{
    match found {
        Some(at) => Ok(good.push(at)?),
        None => Ok(()),
    }
}

/// Adds the good marks of a file by the numbers of their declarations.
fn add_good(
    alloc: Global,
    home: usize,
    file: usize,
    tree: &FileTree,
    found: &[Mark],
    good: &mut Vec<MarkRef>,
) -> Result<(), NoMemory>
    ensures { OnOk result (map mark_ref_of good.new.items
        ≡ map mark_ref_of good.old.items ++ marks_by_number home file (file_of tree.now) found.now) }
{
    if found.is_empty() {
        return Ok(());
    }
    let table = declared_spans(alloc, home, file, tree)?;
    for mark in found {
        push_found(table.find(mark.decl), good)?;
    }
    Ok(())
}

/// Adds the bad marks of the file with this path.
fn add_bad(
    alloc: Global,
    path: &[u8],
    found: &[BadMark],
    bad: &mut Vec<BadMarkAt>,
) -> Result<(), NoMemory>
    ensures { OnOk result (map bad_at_of bad.new.items
        ≡ map bad_at_of bad.old.items ++ map (λ b. (path.now, b)) found.now) }
{
    for mark in found {
        bad.push(BadMarkAt {
            path: Text::copied(alloc, path)?,
            mark: *mark,
        })?;
    }
    Ok(())
}

/// Adds the marks of the file of these numbers, whose blocks have these names.
pub(crate) fn add_marks(
    alloc: Global,
    home: usize,
    file: usize,
    scanned: &ScannedFile,
    source: &SourceTree,
    names: &FileNames,
    list: &mut ModuleMarks,
) -> Result<(), NoMemory>
    requires { IsScanned scanned.now }
    ensures good { OnOk result (map mark_ref_of list.new.good.items ≡ map mark_ref_of list.old.good.items
        ++ marks_by_number home file (file_of source.now.tree)
        (good_marks scanned.now.file.now.bytes scanned.now.tokens.items scanned.now.tokens.comments names.now
        (file_of source.now.tree))) }
    ensures bad { OnOk result (map bad_at_of list.new.bad.items ≡ map bad_at_of list.old.bad.items
        ++ map (λ b. (source.now.path, b))
        (bad_marks scanned.now.file.now.bytes scanned.now.tokens.items scanned.now.tokens.comments names.now
        (file_of source.now.tree))) }
{
    let text = scanned.file.bytes.items();
    let found = marks(alloc, text, &scanned.tokens, &source.tree, names)?;
    add_good(
        alloc,
        home,
        file,
        &source.tree,
        found.good(),
        &mut list.good,
    )?;
    add_bad(alloc, source.path.items(), found.bad(), &mut list.bad)
}
