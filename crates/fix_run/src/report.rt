//! A run that replaces no file.

ghost use Rattle.std.specs.Prelude.{◌≡◌};
ghost use Rattle.fix_io.specs.Causes.{Rose};
ghost use Rattle.fix_run.specs.Causes.{IsReported};

use crate::status::Status;
use fix_io::{Sink, write_all};
use run_plans::planned_modules::Plan;

/// Writes the report of a plan, and answers whether a use would be inlined.
pub fn report_only<S: Sink>(plan: &Plan, out: &mut S) -> Status
    ensures ends { IsReported result plan.now (S.contents out.old) (S.contents out.new) }
    ensures cause { result ≡ Status.ReportFault → Rose (S.faults out.old) (S.faults out.new) }
{
    match write_all(out, plan.report.items()) {
        Ok(()) => {
            if plan.steps == 0 {
                Status::Done
            } else {
                Status::Found
            }
        }
        Err(_) => Status::ReportFault,
    }
}
