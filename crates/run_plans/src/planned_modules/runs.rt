//! From the program of a module to its plan.

ghost use Rattle.std.specs.Prelude.{◌<◌, ◌≤◌, ◌^◌, All, IfErr, IfOk, List, length, ℕ};
ghost use Rattle.pkg_graph.specs.Reads.{Source};
ghost use Rattle.module_texts.specs.declared.modules.ReadModule as declared;
ghost use Rattle.read_modules.specs.Modules.{packages_in, texts_in};
ghost use Rattle.stepped_programs.specs.RunReports.Kept.{MayBeTold};
ghost use Rattle.run_plans.specs.PlannedFiles.Limits.{IsReadFile};
ghost use Rattle.run_plans.specs.PlannedModules.Runs.{IsLimitOf, IsMadeOf, IsRunFault, IsRunPlan, StartsRun, StartsSomeRun};

use crate::inlined_programs::{PassedIn, StepFault, inline_all};
use crate::planned_files::changed_files::changed_files;
use crate::planned_files::{
    file_limit, last_texts, last_texts_are_those_of_runs, limits_are_told_of_read_files,
};
use crate::planned_modules::faults::ModuleFault;
use crate::planned_modules::plan::Plan;
use crate::planned_modules::sources::report_sources;
use file_names::Places;
use go_tree::{MAX_FILE_BYTES, NoMemory};
use programs::Program;
use report_order::{ReportRow, ReportSource};
use run_rules::programs_have_one_run;
use source_files::SourceFile;
use std::alloc::Global;
use stepped_programs::run_reports::{find_files, kept_rows_tell, reports_are_of_runs, run_report};

/// The plan that a program makes which stands at the end of a run, by the rows of its steps; `places` says where each
/// file of the report stands. An error where memory is refused; also as `run_report`, where something isn't found,
/// which never comes at the end of a run.
///
/// One look at each file of the program; linear in the texts, which are copied, and the rows of the report are sorted.
fn make_plan(
    alloc: Global,
    files: &[SourceFile],
    program: &Program,
    sources: &[ReportSource],
    places: &Places,
    rows: Vec<ReportRow>,
) -> Result<Plan, NoMemory>
    requires small { All (λ f. length f.text.now ≤ MAX_FILE_BYTES) sources.now }
    requires told { MayBeTold program.now }
    requires few { length rows.items < 2 ^ 32 }
    ensures { IfOk result (IsMadeOf files.now sources.now places.now program.now rows.items) }
{
    let steps = rows.len() as u32;
    let report = run_report(alloc, program, sources, places, rows)?;
    let texts = last_texts(alloc, files, program)?;
    let writes = changed_files(alloc, files, texts)?;
    Ok(Plan {
        report,
        steps,
        writes,
    })
}

/// The refusal of a run that stopped in this program, which is that of a module read from these files.
fn limit_fault(files: &[SourceFile], program: &Program, at: PassedIn) -> ModuleFault
    requires { (path : List ℕ) × IsReadFile files.now program.now.packages.items at.home at.file path }
    ensures { IsLimitOf files.now program.now.packages.items at result }
{
    ModuleFault::Refused(file_limit(files, &program.packages, at.home, at.file, at.passed))
}

/// The plan of the run that begins in this program, which is that of a module read from these files; or the limit that
/// the run passes, or want of memory. See `make_plan`.
pub(crate) fn plan_run(
    alloc: Global,
    files: &[SourceFile],
    program: &mut Program,
) -> Result<Plan, ModuleFault>
    requires small { All (λ f. length f.bytes ≤ MAX_FILE_BYTES) files.now }
    requires starts { StartsSomeRun files.now program.old }
    ensures planned { IfOk result (λ p. (folder : List Source) (m : declared.ReadModule) (only : List ℕ)
        → StartsRun folder files.now m only program.old
        → IsRunPlan folder files.now (packages_in m) (texts_in m) only p) }
    ensures refused { IfErr result (λ e. (folder : List Source) (m : declared.ReadModule) (only : List ℕ)
        → StartsRun folder files.now m only program.old
        → IsRunFault folder files.now (packages_in m) (texts_in m) only e) }
{
    kept_rows_tell();
    reports_are_of_runs();
    programs_have_one_run();
    last_texts_are_those_of_runs();
    limits_are_told_of_read_files();
    let sources = report_sources(alloc, files)?;
    let places = find_files(alloc, &sources)?;
    let planned = match inline_all(alloc, program, &places) {
        Ok(rows) => match make_plan(alloc, files, program, &sources, &places, rows) {
            Ok(plan) => Ok(plan),
            Err(_) => Err(ModuleFault::NoMemory),
        },
        Err(StepFault::TooLarge(at)) => Err(limit_fault(files, program, at)),
        Err(StepFault::NoMemory) => Err(ModuleFault::NoMemory),
    };
    drop(places);
    planned
}
