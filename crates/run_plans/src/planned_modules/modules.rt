//! What is planned for the files of a module.

ghost use Rattle.std.specs.Prelude.{◌≡◌, ◌<◌, ◌≤◌, ◌^◌, All, IfErr, IfOk, List, OnOk, length, true, ℕ};
ghost use Rattle.module_texts.specs.Modules.{IsReadFrom};
ghost use Rattle.module_texts.specs.declared.modules.ReadModule as declared;
ghost use Rattle.pkg_graph.specs.Reads.{Source};
ghost use Rattle.read_modules.specs.Modules.{packages_in, texts_in};
ghost use Rattle.run_plans.specs.PlannedModules.Folders.{AreFolder, AreOfFolder};
ghost use Rattle.run_plans.specs.PlannedModules.Loaded.{IsLoadedOf, IsLoadedOfSome};
ghost use Rattle.run_plans.specs.PlannedModules.Modules.{is_formed as spec_is_formed};
ghost use Rattle.run_plans.specs.PlannedModules.Places.{IsTypingOf};
ghost use Rattle.run_plans.specs.PlannedModules.Planned.{IsModulePlan};
ghost use Rattle.run_plans.specs.PlannedModules.Unplanned.{IsModuleFault};

use crate::inlined_programs::loaded_programs_begin_runs;
use crate::planned_modules::faults::ModuleFault;
use crate::planned_modules::names::is_formed;
use crate::planned_modules::places::typing_fault;
use crate::planned_modules::plan::Plan;
use crate::planned_modules::runs::plan_run;
use crate::planned_modules::sizes::{total_bytes, within_limit};
use crate::planned_modules::told::{not_built, too_large};
use crate::planned_modules::types::declared_types;
use checked_modules::read_values_are_spelled;
use folder_reading::MAX_MODULE_BYTES;
use go_tree::MAX_FILE_BYTES;
use module_reading::read_module_files;
use module_refusals::first_refusal;
use module_texts::ReadModule;
use programs::Program;
use read_modules::{modules_are_read, modules_may_be_loaded};
use refusals::Refusal;
use source_files::SourceFile;
use std::alloc::Global;
use stepped_programs::loaded_programs::load_program;
use variadic_words::files_without_dots_hand_on_no_slice;

/// Why the files are no module. Want of memory, where they are one.
fn no_module(alloc: Global, files: &[SourceFile]) -> ModuleFault
    requires count { length files.now < 2 ^ 32 }
    requires small { All (λ f. length f.bytes ≤ MAX_FILE_BYTES) files.now }
    ensures { (only : List ℕ) → IsModuleFault files.now only result }
{
    match first_refusal(alloc, files) {
        Ok(Some(refusal)) => ModuleFault::Refused(refusal),
        Ok(None) | Err(_) => ModuleFault::NoMemory,
    }
}

/// The place of the first fault of the module that was read from these files, as it is told; None where it is well
/// typed. An error where a file has variadic syntax, or a package or an import is named `true`, `false`, `nil` or
/// `iota`; also where memory is refused, as `typing_fault` says.
fn form_fault(
    alloc: Global,
    files: &[SourceFile],
    read: &ReadModule,
) -> Result<Option<Refusal>, ModuleFault>
    requires count { length files.now < 2 ^ 32 }
    requires small { All (λ f. length f.bytes ≤ MAX_FILE_BYTES) files.now }
    requires read { IsReadFrom files.now read.now }
    ensures formed { OnOk result (spec_is_formed (packages_in read.now) (texts_in read.now) ≡ true) }
    ensures typing { IfOk result (IsTypingOf files.now (packages_in read.now)) }
    ensures refused { IfErr result (λ e. (only : List ℕ) → IsModuleFault files.now only e) }
{
    modules_are_read();
    if !is_formed(&read.files, read.graph.packages()) {
        return Err(not_built());
    }
    Ok(typing_fault(alloc, files, read)?)
}

/// The plan of the run that begins in this program, which was loaded of a module with such a first fault and so many
/// bytes, that was read from these files; or why there is none. See `plan_run`.
fn plan_loaded(
    alloc: Global,
    files: &[SourceFile],
    program: &mut Program,
    fault: Option<Refusal>,
    size: u64,
) -> Result<Plan, ModuleFault>
    requires small { All (λ f. length f.bytes ≤ MAX_FILE_BYTES) files.now }
    requires folder { AreFolder files.now }
    requires loaded { IsLoadedOfSome files.now fault size program.old }
    ensures planned { IfOk result (λ p. (m : declared.ReadModule) (only : List ℕ)
        → IsLoadedOf files.now m only fault size program.old
        → (folder : List Source) → AreOfFolder folder files.now → IsModulePlan folder files.now only p) }
    ensures refused { IfErr result (λ e. (m : declared.ReadModule) (only : List ℕ)
        → IsLoadedOf files.now m only fault size program.old → IsModuleFault files.now only e) }
{
    modules_are_read();
    files_without_dots_hand_on_no_slice();
    loaded_programs_begin_runs();
    if let Some(refusal) = fault {
        return Err(ModuleFault::Refused(refusal));
    }
    if size > MAX_MODULE_BYTES as u64 {
        return Err(too_large(size));
    }
    plan_run(alloc, files, program)
}

/// The plan for a module that was read from these files, or why there is none.
fn plan_read(
    alloc: Global,
    files: &[SourceFile],
    read: ReadModule,
    only: &[u8],
) -> Result<Plan, ModuleFault>
    requires count { length files.now < 2 ^ 32 }
    requires small { All (λ f. length f.bytes ≤ MAX_FILE_BYTES) files.now }
    requires folder { AreFolder files.now }
    requires read { IsReadFrom files.now read }
    ensures planned { IfOk result (λ p. (folder : List Source) → AreOfFolder folder files.now
        → IsModulePlan folder files.now only.now p) }
    ensures refused { IfErr result (IsModuleFault files.now only.now) }
{
    modules_are_read();
    modules_may_be_loaded();
    read_values_are_spelled();
    let types = declared_types(alloc, read.graph.packages(), read.graph.order())?;
    let fault = form_fault(alloc, files, &read)?;
    let size = total_bytes(files);
    match load_program(alloc, read, types, only, within_limit(size)) {
        Ok(Some(mut program)) => {
            let plan = plan_loaded(alloc, files, &mut program, fault, size);
            drop(program);
            plan
        }
        Ok(None) => {
            drop(fault);
            Err(not_built())
        }
        Err(_) => {
            drop(fault);
            Err(ModuleFault::NoMemory)
        }
    }
}

/// Plans the run over the files that are read of a folder, in the order of their paths, for declarations whose full
/// names begin with `only`.
///
/// The checks come in this order: `first_refusal`'s, so any module is read; 100 where the module isn't of the form that
/// is built, since a file has variadic syntax, a mark is of a function, a method or an alias, or a package or an import
/// is named `true`, `false`, `nil` or `iota`; 401 at the place of the first fault where it isn't well typed; 501 where
/// it has more bytes than a module may have; and 501 where its run passes a limit. Want of memory is told as such (Go
/// specification, Packages; Constant declarations; golang.org/x/tools, analyzer inline).
pub fn plan_module(alloc: Global, files: &[SourceFile], only: &str) -> Result<Plan, ModuleFault>
    requires count { length files.now < 2 ^ 32 }
    requires small { All (λ f. length f.bytes ≤ MAX_FILE_BYTES) files.now }
    requires folder { AreFolder files.now }
    ensures planned { IfOk result (λ p. (folder : List Source) → AreOfFolder folder files.now
        → IsModulePlan folder files.now only.now p) }
    ensures refused { IfErr result (IsModuleFault files.now only.now) }
{
    match read_module_files(alloc, files) {
        Ok(read) => plan_read(alloc, files, read, only.as_bytes()),
        Err(_) => Err(no_module(alloc, files)),
    }
}
