//! The step over a use that is found.

ghost use Rattle.std.specs.Prelude.{◌<◌, IfErr, IfOk, length};
ghost use Rattle.stepped_programs.specs.FirstUses.Step.{IsUseFault, IsUseStep, MayStep};

use crate::first_uses::first::FirstUse;
use crate::package_search::{FileStep, step_file};
use programs::Program;
use repeated_parts::use_search::FileView;
use std::alloc::Global;
use step_files::{FileFault, Progress};

/// The step over the use that is found in the program, in a run that has come so far: its edits of the text of its
/// file, and the file that they make, read again; see package_search's `step_file` (Go specification, Constant
/// declarations; Import declarations). Linear in the file and its text.
pub fn step_use(
    alloc: Global,
    program: &Program,
    first: &FirstUse,
    progress: &Progress,
) -> Result<FileStep, FileFault>
    requires { MayStep program.now first.now }
    ensures made { IfOk result (IsUseStep program.now first.now progress.now) }
    ensures refused { IfErr result (IsUseFault program.now first.now progress.now) }
{
    let found = &first.found;
    let home = &program.packages[first.home];
    let source = &home.files.items()[found.file];
    let kept = &program.files[first.home];
    let tokens = &kept.tokens[found.file];
    let view = FileView {
        home: first.home,
        tree: &source.tree,
        comments: tokens.comments(),
        names: &found.tables.names,
        scopes: &found.tables.scopes,
        imports: &found.tables.imports,
    };
    let text = kept.texts[found.file].items();
    step_file(alloc, &view, text, tokens, &found.found.form, progress)
}
