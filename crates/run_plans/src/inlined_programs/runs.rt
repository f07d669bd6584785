//! The whole run.

ghost use Rattle.std.specs.Prelude.{◌≡◌, IfErr, IfOk, OnOk};
ghost use Rattle.run_plans.specs.InlinedPrograms.Beginnings.{Beginning, BeginsRun};
ghost use Rattle.run_plans.specs.InlinedPrograms.Runs.{DoesNotEnd, RunsToEnd};

use crate::inlined_programs::faults::StepFault;
use crate::inlined_programs::steps::step;
use file_names::Places;
use programs::Program;
use report_order::ReportRow;
use run_by_steps::step_counts::StepCounts;
use std::alloc::Global;

/// Makes all steps of the run that begins at the program, until no use is free: the texts are those of the inlined
/// module then, and the rows tell of the steps, in their order, where `files` says where each file of the report stands
/// by its path. Marks that mean nothing stay.
///
/// `TooLarge` comes exactly where a step passes a limit of the run, and tells the first and the file; the program
/// stands before that step then. After `NoMemory` it is of no use. A run has at most 65,536 steps; see `step` for what
/// each takes (Go specification, Constant declarations; golang.org/x/tools, analyzer inline).
pub fn inline_all(
    alloc: Global,
    program: &mut Program,
    files: &Places,
) -> Result<Vec<ReportRow>, StepFault>
    requires { (b : Beginning) × BeginsRun b program.old }
    ensures inlined { IfOk result (λ rows. (b : Beginning) → BeginsRun b program.old
        → RunsToEnd b files.now rows.items program.new) }
    ensures refused { IfErr result (λ e. (b : Beginning) → BeginsRun b program.old → DoesNotEnd b e program.new) }
    ensures bad { OnOk result (program.new.bad ≡ program.old.bad) }
{
    let mut counts = StepCounts::new(alloc);
    let mut rows = Vec::new(alloc);
    let mut held = None;
    'steps: loop {
        match step(alloc, program, &mut counts, files, &mut held) {
            Ok(Some(row)) => {
                let Ok(()) = rows.push(row) else {
                    return Err(StepFault::NoMemory);
                };
            }
            Ok(None) => return Ok(rows),
            Err(fault) => return Err(fault),
        }
    }
}
