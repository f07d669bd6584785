//! The step over a use that is found.

ghost use Rattle.std.specs.Prelude.{◌≡◌, ◌+◌, ◌<◌, ◌≤◌, ◌^◌, IfErr, IfOk, OnOk, length};
ghost use Rattle.file_tables.specs.Blocks.{HasOwnTable, block_in};
ghost use Rattle.run_by_steps.specs.StepCounts.Origins.{steps_from};
ghost use Rattle.stepped_programs.specs.FirstUses.Step.{HasFileOf, IsUseStep, MayStep};
ghost use Rattle.stepped_programs.specs.Laws.{place_of};
ghost use Rattle.stepped_programs.specs.ProgramsOnTheWay.OnTheWay.{IsProgressOf};
ghost use Rattle.stepped_programs.specs.Steps.{MayBePut};
ghost use Rattle.run_plans.specs.InlinedPrograms.Steps.{HasPut, HasTaken, HoldsBlockOf, IsNotTaken, LeavesNoFile};
ghost use Rattle.run_plans.specs.InlinedPrograms.Steps.{MayBeTaken, TextIsRead};

use crate::inlined_programs::faults::{PassedIn, StepFault};
use crate::inlined_programs::logged::logged_step;
use file_names::Places;
use file_tables::Block;
use go_tree::NoMemory;
use programs::Program;
use report_order::ReportRow;
use run_by_steps::step_counts::StepCounts;
use std::alloc::Global;
use step_files::{FileFault, NewFile, Progress};
use stepped_programs::package_search::{FileStep, FoundInPackage};
use stepped_programs::run_reports::{LoggedStep, step_row};
use stepped_programs::{FirstUse, HeldBlock, StepPlace, put_step, step_origins, step_use};

/// How far the run has come before the step over the use, which comes from this offset of its file as read.
fn progress_before(
    program: &Program,
    counts: &StepCounts,
    first: &FirstUse,
    offset: u32,
) -> Progress
    requires may { MayStep program.now first.now }
    requires fits { (h : HasFileOf program.now first.now) → length h.text ≤ program.now.bytes }
    ensures { IsProgressOf program.now first.now counts.now offset result }
{
    let kept = &program.files[first.home];
    let text = kept.texts[first.found.file].items();
    let origin = (first.home, (first.found.file, offset));
    counts.progress(origin, program.bytes, text.len())
}

/// The edits of the step over the use, and the file that they make; or the limit that it passes.
fn made_step(
    alloc: Global,
    program: &Program,
    first: &FirstUse,
    progress: &Progress,
) -> Result<FileStep, StepFault>
    requires may { MayStep program.now first.now }
    requires read { TextIsRead program.now first.now progress.now }
    ensures made { IfOk result (IsUseStep program.now first.now progress.now) }
    ensures refused { IfErr result (LeavesNoFile program.now first.now progress.now) }
{
    match step_use(alloc, program, first, progress) {
        Ok(step) => Ok(step),
        Err(FileFault::TooLarge(passed)) => Err(StepFault::TooLarge(PassedIn {
            home: first.home,
            file: first.found.file,
            passed,
        })),
        Err(FileFault::NotRead) => unreachable!("the new text is read"),
        Err(FileFault::NoMemory) => Err(StepFault::NoMemory),
    }
}

/// Where the step over the use is made.
fn place_of(first: &FirstUse) -> StepPlace
    ensures { result ≡ place_of first.now.home first.now.found }
{
    StepPlace {
        home: first.home,
        file: first.found.file,
        decl: first.found.found.use_.decl,
    }
}

/// The block of its package.
fn own_block(first: FirstUse) -> Block
    ensures { result ≡ block_in first.found.tables }
{
    let FirstUse { found, .. } = first;
    let FoundInPackage { tables, .. } = found;
    Block::in_tables(tables)
}

/// Puts the file of the step into the program, and counts the step, which is logged so; its row of the report, where
/// `files` says where each file of the report stands by its path. The block of the step's package is held from now on.
/// An error where memory is refused, or as `step_row`; the program is of no use then.
fn put_taken(
    alloc: Global,
    program: &mut Program,
    counts: &mut StepCounts,
    files: &Places,
    first: FirstUse,
    log: LoggedStep,
    file: NewFile,
    held: &mut Option<HeldBlock>,
) -> Result<ReportRow, NoMemory>
    requires put { MayBePut program.old (place_of first.home first.found) file }
    requires table { HasOwnTable (block_in first.found.tables) }
    requires steps { counts.old.steps + 1 < 2 ^ 32 }
    requires of_origin { steps_from (first.home, (first.found.file, log.offset)) counts.old.origins
        ≤ counts.old.steps }
    ensures put { IfOk result (λ row. HasPut program.old counts.old first files.now log file row
        program.new counts.new) }
    ensures held { OnOk result (HoldsBlockOf first held.new) }
{
    let row = step_row(alloc, &program.packages, files, log)?;
    let at = place_of(&first);
    let form = &first.found.found.form;
    let origins = step_origins(alloc, program, at, form.span, form.package.is_some())?;
    let origin = (first.home, (first.found.file, log.offset));
    let block = own_block(first);
    let block = put_step(alloc, program, at, origins, block, file)?;
    *held = Some(HeldBlock {
        home: at.home,
        block,
    });
    counts.add(origin)?;
    Ok(row)
}

/// Makes the step over the use that is found in the program; its row of the report. The counts are those of the steps
/// that were made. Where it passes a limit, nothing changes (Go specification, Constant declarations; Import
/// declarations). Once it is made the block of its package is held.
///
/// Linear in the file and in the declaration of the constant, and see stepped_programs' `put_step`.
pub(crate) fn take_step(
    alloc: Global,
    program: &mut Program,
    counts: &mut StepCounts,
    files: &Places,
    first: FirstUse,
    held: &mut Option<HeldBlock>,
) -> Result<ReportRow, StepFault>
    requires may { MayBeTaken program.old counts.old first }
    requires table { HasOwnTable (block_in first.found.tables) }
    ensures taken { IfOk result (λ row. HasTaken program.old counts.old first files.now row
        program.new counts.new) }
    ensures refused { IfErr result (λ e. IsNotTaken program.old counts.old first e program.new counts.new) }
    ensures held { OnOk result (HoldsBlockOf first held.new) }
{
    let Ok(log) = logged_step(alloc, program, &first) else {
        return Err(StepFault::NoMemory);
    };
    let progress = progress_before(program, counts, &first, log.offset);
    let made = match made_step(alloc, program, &first, &progress) {
        Ok(made) => made,
        Err(fault) => return Err(fault),
    };
    let FileStep { file, .. } = made;
    match put_taken(alloc, program, counts, files, first, log, file, held) {
        Ok(row) => Ok(row),
        Err(_) => Err(StepFault::NoMemory),
    }
}
