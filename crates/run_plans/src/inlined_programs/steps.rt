//! The next step of a run.

ghost use Rattle.std.specs.Prelude.{◌≡◌, IfErr, IfOk, OnOk};
ghost use Rattle.stepped_programs.specs.HeldBlocks.{IsHeldIn};
ghost use Rattle.run_plans.specs.InlinedPrograms.Beginnings.{IsOnRun};
ghost use Rattle.run_plans.specs.InlinedPrograms.Runs.{TakesNoStep, TakesStep};

use crate::inlined_programs::faults::StepFault;
use crate::inlined_programs::laws::{steps_may_be_taken, taken_steps_come_next};
use crate::inlined_programs::taken::take_step;
use file_names::Places;
use programs::Program;
use report_order::ReportRow;
use run_by_steps::step_counts::StepCounts;
use std::alloc::Global;
use stepped_programs::{HeldBlock, first_use, first_uses_keep_programs};

/// Makes the next step of the run on which the program stands, over its first free use, and counts it; its row of the
/// report, where `files` says where each file of the report stands by its path. Nothing where no use is free. The
/// packages and the texts are then those after the step; marks that mean nothing stay.
///
/// `TooLarge` comes exactly where the step passes a limit of the run, and tells the first and the file; the program
/// stands before the step then. After `NoMemory` it is of no use. What is held is the block of the package that was
/// looked at last, before the step and after it. See stepped_programs' `first_use`, `step_use` and `put_step` for what
/// a step takes (Go specification, Constant declarations; Import declarations).
pub fn step(
    alloc: Global,
    program: &mut Program,
    counts: &mut StepCounts,
    files: &Places,
    held: &mut Option<HeldBlock>,
) -> Result<Option<ReportRow>, StepFault>
    requires run { IsOnRun program.old counts.old }
    requires held { IsHeldIn program.old.packages.items held.old }
    ensures taken { IfOk result (λ r. TakesStep program.old counts.old files.now r program.new counts.new) }
    ensures refused { IfErr result (λ e. TakesNoStep program.old counts.old e program.new counts.new) }
    ensures bad { OnOk result (program.new.bad ≡ program.old.bad) }
    ensures held { OnOk result (IsHeldIn program.new.packages.items held.new) }
{
    first_uses_keep_programs();
    steps_may_be_taken();
    taken_steps_come_next();
    let Ok(found) = first_use(alloc, program, held) else {
        return Err(StepFault::NoMemory);
    };
    let Some(first) = found else {
        return Ok(None);
    };
    match take_step(alloc, program, counts, files, first, held) {
        Ok(row) => Ok(Some(row)),
        Err(fault) => Err(fault),
    }
}
