//! Files that differ from those that were read.

ghost use Rattle.std.specs.Prelude.{◌≡◌, ◌++◌, IfOk, OnOk};
ghost use Rattle.run_plans.specs.PlannedFiles.ChangedFiles.Changed.{change_of, changes};

use go_tree::{NoMemory, Text};
use source_files::SourceFile;
use std::alloc::Global;

/// The text of a file at the end of a run, by the number of the file among those that were read.
#[derive(Drop)]
pub struct LastText {
    pub file: usize,
    pub text: Text,
}

/// A file of which the bytes differ from those that were read: its index, and its new bytes.
#[derive(Drop)]
pub struct ChangedFile {
    pub index: u32,
    pub bytes: Text,
}

/// Adds the file, if its bytes differ.
fn add_change(
    files: &[SourceFile],
    last: LastText,
    list: &mut Vec<ChangedFile>,
) -> Result<(), NoMemory>
    ensures { OnOk result (list.new.items ≡ list.old.items ++ change_of files.now last) }
{
    let LastText { file, text } = last;
    let Some(old) = files.get(file) else {
        return Ok(());
    };
    if old.bytes.items() == text.items() {
        return Ok(());
    }
    list.push(ChangedFile {
        index: old.index,
        bytes: text,
    })?;
    Ok(())
}

/// Of the files that were read those whose bytes differ at the end, with their new bytes, in the order of the texts.
/// Linear in the texts. An error where memory is refused.
#[tactic(auto, using(crate::proofs::PlannedFiles::ChangedFiles::Both::one_more))]
pub fn changed_files(
    alloc: Global,
    files: &[SourceFile],
    texts: Vec<LastText>,
) -> Result<Vec<ChangedFile>, NoMemory>
    ensures { IfOk result (λ list. list.items ≡ changes files.now texts.items) }
{
    let mut list = Vec::new(alloc);
    for last in texts {
        add_change(files, last, &mut list)?;
    }
    Ok(list)
}
