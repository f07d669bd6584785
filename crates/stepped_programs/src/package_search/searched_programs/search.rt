//! A package of a program.

ghost use Rattle.std.specs.Prelude.{◌<◌, IfOk, OnOk, length};
ghost use Rattle.stepped_programs.specs.HeldBlocks.{HoldsBlock, IsHeldIn};
ghost use Rattle.stepped_programs.specs.PackageSearch.SearchedPrograms.Programs.{IsOpen, IsOpenProgram, IsProgramSearch};
ghost use Rattle.stepped_programs.specs.PackageSearch.SearchedPrograms.Programs.{IsPackagesSearch};

use crate::held_blocks::HeldBlock;
use crate::package_search::searched_programs::files::search_files;
use crate::package_search::{FoundInPackage, ProgramSources};
use go_tree::NoMemory;
use programs::{PackageFiles, Program, Users};
use std::alloc::Global;

/// The same, with what is kept of the files of all packages.
fn search_kept(
    alloc: Global,
    sources: &ProgramSources,
    number: usize,
    files: &mut [PackageFiles],
    users: &mut Users,
    held: &mut Option<HeldBlock>,
) -> Result<Option<FoundInPackage>, NoMemory>
    requires open { IsOpen sources.now files.old number }
    requires held { IsHeldIn sources.now.packages.now held.old }
    ensures search { IfOk result (IsPackagesSearch sources.now number files.old files.new users.old users.new) }
    ensures held { OnOk result (IsHeldIn sources.now.packages.now held.new) }
    ensures found { IfOk result HoldsBlock }
{
    let home = &sources.packages[number];
    let kept = &mut files[number];
    search_files(
        alloc,
        sources,
        number,
        home,
        &kept.tokens,
        &mut kept.settled,
        users,
        held,
    )
}

/// The first use in the package with this number that is free, in the order of its files. Files that are settled
/// aren't looked at; those that are looked at and have no free use are settled from now on, and are users of the
/// constants of which they keep uses. Nothing else of the program changes. What is held is a block of the program, and
/// is asked for in place of the package's where it is that. An error where memory is refused.
pub fn search_program(
    alloc: Global,
    program: &mut Program,
    number: usize,
    held: &mut Option<HeldBlock>,
) -> Result<Option<FoundInPackage>, NoMemory>
    requires open { IsOpenProgram program.old number }
    requires held { IsHeldIn program.old.packages.items held.old }
    ensures search { IfOk result (IsProgramSearch program.old program.new number) }
    ensures held { OnOk result (IsHeldIn program.old.packages.items held.new) }
    ensures found { IfOk result HoldsBlock }
{
    let sources = ProgramSources {
        packages: &program.packages,
        places: &program.places,
        marks: &program.marks,
        values: &program.values,
        types: &program.types,
    };
    search_kept(
        alloc,
        &sources,
        number,
        &mut program.files,
        &mut program.users,
        held,
    )
}
