//! Laws of programs on the way of a run.

ghost use Rattle.stepped_programs.specs.ProgramsOnTheWay.Laws as law;

use crate::{
    first_uses_are_steps, first_uses_keep_programs, found_uses_may_step, origins_are_swapped,
    steps_go_on, steps_keep_programs, steps_keep_settled, tables_serve_programs,
    typed_files_are_searchable,
};
use constant_modules::constant_programs::constant_programs_stay;
use literal_tables::right_tables_stay;
use printed_constants::printed_steps_avoid_few_names;
use run_by_steps::progress_follows_steps;
use run_by_steps::step_counts::{counts_come, steps_are_counted};

/// The program that is loaded of a module which has the form whose constants are inlined, is well typed and within the
/// limits, and whose marks are of constants, stands at the beginning of a run: no step is counted, and no file is settled.
pub fn runs_begin()
    ensures { law.RunsBegin }
{
    constant_programs_stay();
    right_tables_stay();
    steps_are_counted();
    tables_serve_programs();
    typed_files_are_searchable();
}

/// Looking for the first free use leaves a program where it stands on its way (`stay`). What is found is the use that
/// the run takes next, and is as steps over it ask (`found`); how far the run has come is told by the counts (`come`),
/// so the step over it leads to the next program, or to the limit that is passed (stepped_programs' `use_steps_go_on`).
pub fn first_uses_come_next()
    ensures stay { law.FirstUsesStayOnTheWay }
    ensures found { law.FirstUsesAreFound }
    ensures come { law.FoundUsesComeNext }
{
    first_uses_keep_programs();
    first_uses_are_steps();
    found_uses_may_step();
    constant_programs_stay();
    counts_come();
}

/// With the file of the step put in, the step counted, and the origins of its declaration told, the next program stands
/// on the way of the run (`stay`), and the block of the step's package has the names that it had (`blocks`). Of the
/// step nothing is asked.
pub fn steps_stay_on_the_way()
    ensures stay { law.StepsStayOnTheWay }
    ensures blocks { law.BlocksStayOnTheWay }
{
    found_uses_may_step();
    constant_programs_stay();
    printed_steps_avoid_few_names();
    origins_are_swapped();
    progress_follows_steps();
    steps_are_counted();
    steps_keep_programs();
    steps_keep_settled();
    tables_serve_programs();
    right_tables_stay();
    typed_files_are_searchable();
}

/// Where no free use is found the texts are those of the inlined module, with the report of the steps that were made.
pub fn runs_end()
    ensures { law.RunsEnd }
{
    first_uses_are_steps();
    steps_go_on();
}
