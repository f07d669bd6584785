//! A program, package by package.

ghost use Rattle.std.specs.Prelude.{◌<◌, All, IfOk, OnOk, length};
ghost use Rattle.stepped_programs.specs.HeldBlocks.{IsHeldIn};
ghost use Rattle.stepped_programs.specs.FirstUses.First.{HasBlock, IsFirstUse, IsOpenInOrder};

use crate::held_blocks::HeldBlock;
use crate::package_search::{FoundInPackage, search_program};
use go_tree::NoMemory;
use programs::Program;
use std::alloc::Global;

/// A use that is free, with the number of its package.
#[derive(Drop)]
pub struct FirstUse {
    pub home: usize,
    pub found: FoundInPackage,
}

/// The first use in a program that is free: packages in the order of their imports, the files of each in their order.
/// Files that are settled aren't looked at; those that are looked at and have no free use are settled from now on, and
/// are users of the constants of which they keep uses. Where nothing is found, all files are settled. Nothing else of
/// the program changes. An error where memory is refused (Go specification, Constant declarations; Packages).
///
/// What is held is the block of the package that was looked at last; where a use is found its tables have that of its
/// package, and nothing is held.
///
/// Of a file that is settled the flag alone is read. A package's block is made anew where one of its files isn't
/// settled and the block isn't held; of such files see package_search's `look_at_file`.
pub fn first_use(
    alloc: Global,
    program: &mut Program,
    held: &mut Option<HeldBlock>,
) -> Result<Option<FirstUse>, NoMemory>
    requires open { IsOpenInOrder program.old }
    requires held { IsHeldIn program.old.packages.items held.old }
    ensures first { IfOk result (IsFirstUse program.old program.new) }
    ensures held { OnOk result (IsHeldIn program.new.packages.items held.new) }
    ensures block { IfOk result HasBlock }
{
    for at in 0..program.order.len() {
        let home = program.order[at] as usize;
        let searched = search_program(alloc, program, home, held)?;
        if let Some(found) = searched {
            return Ok(Some(FirstUse { home, found }));
        }
    }
    Ok(None)
}
