//! The laws of programs of constants on the way of a run.

ghost use Rattle.constant_modules.specs.ConstantPrograms.Laws as law;

use crate::constant_runs::{
    constant_programs_are_read, constant_runs_inline, constant_steps_stay,
    first_uses_are_of_constants,
};
use crate::named_there::constant_steps_take_names;
use printed_constants::printed_steps_avoid_few_names;
use run_by_steps::paths_stay_apart;

/// A module that reads and is well typed and within the limits, has the form (`HasForm`), and all of whose marks are of
/// constants, is a program as it stands on the way of a run (`read`). The first use of such a program that becomes a form
/// is as steps over it ask (`first`), and each step is one over a name (`over`). After a step that passes no limit it is
/// such a program again (`kept`), and the same is found of the types and names that it declares (`worlds`). Few names
/// aren't new in its files (`few`). What its inlining leaves reads as a module, which is well typed and means what the
/// old one means (`inlined`) (Go specification, Constant declarations; Composite literals; Identifiers; Import
/// declarations).
pub fn constant_programs_stay()
    ensures read { law.ReadModulesAreConstantPrograms }
    ensures first { law.FirstUsesAreRight }
    ensures over { law.StepsAreOverNames }
    ensures kept { law.ConstantProgramsStay }
    ensures worlds { law.StepsKeepWorlds }
    ensures few { law.SmallFilesTakeFew }
    ensures inlined { law.FormedModulesAreInlined }
{
    constant_programs_are_read();
    constant_runs_inline();
    constant_steps_stay();
    constant_steps_take_names();
    first_uses_are_of_constants();
    paths_stay_apart();
    printed_steps_avoid_few_names();
}
