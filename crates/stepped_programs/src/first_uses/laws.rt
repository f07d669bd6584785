//! Laws of first free uses.

ghost use Rattle.stepped_programs.specs.FirstUses.Laws.{FirstUsesAreSteps, FirstUsesKeepPrograms, FirstUsesSettleFiles};
ghost use Rattle.stepped_programs.specs.FirstUses.Laws.{ProgramsAreOpenInOrder};

use crate::searched_sites::{searches_find_steps, searches_settle_files};
use crate::stepped_values::programs_are_held;

/// The first use of a program may be looked for where all that is kept of the program is its own (`open`), and that
/// stays so (`keep`).
pub fn first_uses_keep_programs()
    ensures open { ProgramsAreOpenInOrder }
    ensures keep { FirstUsesKeepPrograms }
{}

/// In a program that may be searched, whose settled files have no free use, what is found is the use that the run takes
/// next, with all that was told of it, and where nothing is found no use is free (`steps`). Each file whose flag is set
/// then has no free use (`settled`).
pub fn first_uses_are_steps()
    ensures steps { FirstUsesAreSteps }
    ensures settled { FirstUsesSettleFiles }
{
    programs_are_held();
    searches_settle_files();
    searches_find_steps();
}
