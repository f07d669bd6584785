//! Listing, reading and planning. No file is changed here.

ghost use Rattle.std.specs.Prelude.{◌≡◌, ◌<◌, ◌≤◌, length, All, IfOk, IfErr, OnOk, IfSome, true};
ghost use Rattle.fix_io.specs.Causes.{Rose};
ghost use Rattle.folder_reading.specs.Limits.{AreFew};
ghost use Rattle.fix_run.specs.Listed.{lists_module};
ghost use Rattle.fix_run.specs.Files.{AreWritesOf};
ghost use Rattle.fix_run.specs.Causes.{IfQuiet, IsQuiet, MayStop, status_of};
ghost use Rattle.fix_run.specs.Lines.{IsOfFile};

use crate::status::Status;
use fix_io::{Tree, TreeFault};
use folder_reading::{FolderFault, read_folder};
use refusals::{Detail, Refusal};
use run_plans::planned_modules::{
    ModuleFault, Plan, plan_module, read_files_are_folders, refusals_name_files,
    taken_modules_pass_limits,
};
use std::alloc::Global;

/// The refusal of a listed file that is too large, or of all.
fn too_big(file: Option<u32>) -> Status
    ensures { result ≡ Status.Refused (record { file = file; place = None; detail = Detail.TooBig }) }
{
    Status::Refused(Refusal {
        file,
        place: None,
        detail: Detail::TooBig,
    })
}

/// How a run ends whose files aren't read.
fn of_folder(fault: FolderFault) -> Status
    ensures { result ≡ status_of fault }
{
    match fault {
        FolderFault::TooMany => too_big(None),
        FolderFault::Read(i) => Status::ReadFault(i),
        FolderFault::TooLong(i) => too_big(Some(i)),
        FolderFault::NoMemory => Status::NoMemory,
    }
}

/// Lists, reads and plans, for declarations whose full names begin with `only`.
pub fn prepare<T: Tree>(alloc: Global, only: &str, tree: &mut T) -> Result<Plan, Status>
    ensures plan { IfOk result (λ p. IfSome (T.held tree.old) (λ files. AreWritesOf only.now files p)) }
    ensures indices { IfOk result (λ p. All (λ f. f.index < length (T.listed tree.new)) p.writes.items) }
    ensures few { OnOk result (AreFew (T.listed tree.new)) }
    ensures module { OnOk result (lists_module (T.listed tree.new) ≡ true) }
    ensures named { IfErr result (λ status. IsOfFile status (length (T.listed tree.new))) }
    ensures stop { IfErr result
        (λ status. MayStop only.now status (Rose (T.faults tree.old) (T.faults tree.new)) (T.failed tree.new)
        (T.listed tree.new) (T.held tree.old)) }
    ensures same { T.held tree.new ≡ T.held tree.old }
    ensures later { T.faults tree.old ≤ T.faults tree.new }
    ensures quiet { IfQuiet result
        (IsQuiet (T.faults tree.old) (T.faults tree.new) (T.failed tree.old) (T.failed tree.new)) }
{
    read_files_are_folders();
    refusals_name_files();
    taken_modules_pass_limits();
    match tree.list(alloc) {
        Ok(()) => {}
        Err(TreeFault::Failed) => return Err(Status::ListFault),
        Err(TreeFault::NoMemory) => return Err(Status::NoMemory),
    }
    let files = match read_folder(alloc, tree) {
        Ok(files) => files,
        Err(fault) => return Err(of_folder(fault)),
    };
    match plan_module(alloc, &files, only) {
        Ok(plan) => Ok(plan),
        Err(ModuleFault::Refused(refusal)) => Err(Status::Refused(refusal)),
        Err(ModuleFault::NoMemory) => Err(Status::NoMemory),
    }
}
