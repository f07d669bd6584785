//! The edits and the file of a step.

ghost use Rattle.std.specs.Prelude.{◌<◌, ◌≤◌, IfErr, IfOk, None, length, map};
ghost use Rattle.go_tree.specs.FileView.{file_of};
ghost use Rattle.run_rules.specs.ImportRules.Laid.{CommentsAscend, Laid};
ghost use Rattle.text_edits.specs.Applied.{Within, applied};
ghost use Rattle.member_uses.specs.PossibleUses.Views.{part_of};
ghost use Rattle.run_rules.specs.Laws.{LiesBehindImports};
ghost use Rattle.step_files.specs.Files.{IsNewFile, text_of};
ghost use Rattle.step_files.specs.Limits.{Passes};
ghost use Rattle.stepped_programs.specs.PackageSearch.FileSteps.Steps.{IsStepFault, MakesEdits, MakesUnused};

use crate::package_search::file_steps::used::used_expr;
use constant_forms::ConstantForm;
use go_scan::Tokens;
use go_tree::{MAX_FILE_BYTES, NoMemory, Span};
use member_uses::possible_uses::PartRef;
use next_file::new_file;
use printed_constants::step_edits;
use repeated_parts::use_search::FileView;
use repeated_parts::{file_parts, unused_imports};
use std::alloc::Global;
use step_files::{FileFault, NewFile, Progress};
use text_edits::Edits;

/// A step: its edits of the file's text, and the file that they make.
#[derive(Drop)]
pub struct FileStep {
    pub edits: Edits,
    pub file: NewFile,
}

/// The import specs that the step leaves unused, where the parts are those of the file; none where the use isn't among
/// them.
fn left_unused(
    alloc: Global,
    file: &FileView,
    parts: &[PartRef],
    form: &ConstantForm,
) -> Result<Vec<Span>, NoMemory>
    ensures { IfOk result (λ specs. MakesUnused file.now (map part_of parts.now) form.now specs.items) }
{
    let Some(use_) = used_expr(parts, form.span) else {
        return Ok(Vec::new(alloc));
    };
    let specs = unused_imports(alloc, file.names, file.scopes, parts, use_, form)?;
    Ok(specs)
}

/// The edits of the step.
fn edits_of(
    alloc: Global,
    file: &FileView,
    text: &[u8],
    tokens: &Tokens,
    form: &ConstantForm,
) -> Result<Edits, NoMemory>
    requires size { length text.now ≤ MAX_FILE_BYTES }
    requires laid { Laid text.now tokens.now.items (file_of file.now.tree.now) }
    requires ascend { CommentsAscend 0 tokens.now.comments }
    requires behind { LiesBehindImports text.now tokens.now.items (file_of file.now.tree.now) form.now.span }
    requires some { form.now.span.start < form.now.span.end }
    ensures edits { IfOk result (MakesEdits file.now text.now tokens.now form.now) }
    ensures within { IfOk result (λ es. Within (length text.now) es) }
{
    let parts = file_parts(alloc, file.tree.decls.items())?;
    let unused = left_unused(alloc, file, &parts, form)?;
    let edits = step_edits(
        alloc,
        text,
        tokens.items(),
        tokens.comments(),
        file.tree,
        form,
        &unused,
    )?;
    Ok(edits)
}

/// The step in which a use of a marked constant becomes this form, in a file with this text, of a run that has come so
/// far: the edits that settle the imports and write the form, and the file that they make, read again (Go specification,
/// Constant declarations; Import declarations).
///
/// The imports of the file lie in the text as their spans say, and the use behind them. `TooLarge` comes exactly where
/// the step passes a limit of the run, and tells the first; `NotRead` only where the new text reads as no file of
/// supported words. Linear in the file and its text.
pub fn step_file(
    alloc: Global,
    file: &FileView,
    text: &[u8],
    tokens: &Tokens,
    form: &ConstantForm,
    progress: &Progress,
) -> Result<FileStep, FileFault>
    requires size { length text.now ≤ MAX_FILE_BYTES }
    requires laid { Laid text.now tokens.now.items (file_of file.now.tree.now) }
    requires ascend { CommentsAscend 0 tokens.now.comments }
    requires behind { LiesBehindImports text.now tokens.now.items (file_of file.now.tree.now) form.now.span }
    requires some { form.now.span.start < form.now.span.end }
    ensures edits { IfOk result (λ s. MakesEdits file.now text.now tokens.now form.now s.edits) }
    ensures read { IfOk result (λ s. IsNewFile (applied text.now s.edits) s.file) }
    ensures within { IfOk result (λ s. Passes progress.now (text_of s.file) None) }
    ensures refused { IfErr result (IsStepFault file.now text.now tokens.now form.now progress.now) }
{
    let Ok(edits) = edits_of(alloc, file, text, tokens, form) else {
        return Err(FileFault::NoMemory);
    };
    match new_file(alloc, text, &edits, progress) {
        Ok(file) => Ok(FileStep { edits, file }),
        Err(fault) => Err(fault),
    }
}
