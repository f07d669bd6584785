//! The new text of a file, read again.

ghost use Rattle.std.specs.Prelude.{◌≡◌, ◌≤◌, IfErr, IfOk, None, length};
ghost use Rattle.text_edits.specs.Applied.{Within, applied};
ghost use Rattle.next_file.specs.Faults.{fault_of};
ghost use Rattle.step_files.specs.Files.{IsFault, IsNewFile, IsUnread, text_of};
ghost use Rattle.step_files.specs.Limits.{Passes};

use crate::limits::first_passed;
use go_nesting::MAX_LIMIT;
use go_parse::{ReadError, Source, read_file};
use go_tree::{MAX_FILE_BYTES, Text};
use refusals::Limit;
use std::alloc::Global;
use step_files::{FileFault, NewFile, Passed, Progress};
use text_edits::{Edits, apply};

/// What is answered where a new text isn't read.
fn fault_of(error: ReadError) -> FileFault
    ensures { result ≡ fault_of error }
{
    match error {
        ReadError::NotUtf8(_) => FileFault::NotRead,
        ReadError::BadToken(_) => FileFault::NotRead,
        ReadError::Unsupported(_) => FileFault::NotRead,
        ReadError::TooDeep(_) => FileFault::TooLarge(Passed {
            limit: Limit::Weight,
            count: MAX_LIMIT as u64 + 1,
            bound: MAX_LIMIT as u64,
        }),
        ReadError::NotRead(_) => FileFault::NotRead,
        ReadError::NoMemory => FileFault::NoMemory,
    }
}

/// The file with this text.
#[tactic(auto, using(crate::proofs::Unread::unread))]
fn read_again(alloc: Global, text: Vec<u8>) -> Result<NewFile, FileFault>
    requires { length text.items ≤ MAX_FILE_BYTES }
    ensures read { IfOk result (IsNewFile text.items) }
    ensures refused { IfErr result (IsUnread text.items) }
{
    match read_file(alloc, &text) {
        Ok(Source { tokens, tree }) => Ok(NewFile {
            text: Text::of(text),
            tokens,
            tree,
        }),
        Err(error) => Err(fault_of(error)),
    }
}

/// The file that the edits of a step make of one with this text, of a run that has come so far: its new text, with the
/// tokens, the comments and the tree that it reads as (Go specification, Source file organization).
///
/// `TooLarge` comes exactly where the step passes a limit of the run, and tells the first: that of steps, of steps of
/// one origin, of the file's bytes, of the module's bytes, of nesting. `NotRead` comes only where no tokens and no tree
/// are those of the new text, or where a word in it isn't supported. Linear in the text and the edits.
pub fn new_file(
    alloc: Global,
    text: &[u8],
    edits: &Edits,
    progress: &Progress,
) -> Result<NewFile, FileFault>
    requires { Within (length text.now) edits.now }
    ensures read { IfOk result (IsNewFile (applied text.now edits.now)) }
    ensures within { IfOk result (λ f. Passes progress.now (text_of f) None) }
    ensures refused { IfErr result (IsFault progress.now (applied text.now edits.now)) }
{
    let Ok(new) = apply(alloc, text, edits) else {
        return Err(FileFault::NoMemory);
    };
    if let Some(passed) = first_passed(progress, new.len()) {
        return Err(FileFault::TooLarge(passed));
    }
    match read_again(alloc, new) {
        Ok(file) => Ok(file),
        Err(fault) => Err(fault),
    }
}
