//! The laws of steps of programs of constants and of functions that print them.

ghost use Rattle.printed_constants.specs.PrintedSteps.Laws as law;

use crate::counted_names::printed_steps_avoid_few_names;
use crate::laws::{printed_packages_are_plain, steps_stay_printed};
use crate::named_uses::constants_names_stand;
use crate::printed_uses::{printed_steps_are_over, printed_uses_stand};
use crate::standing_forms::first_uses_are_typed;
use crate::typed_parts::marked_runs::{
    added_imports_may_be_declared, constants_settle, marks_stay_named, members_are_linked,
    read_marks_are_named, read_modules_are_ready, runs_over_constants_keep,
};
use constant_steps::form_imports::packages_have_own_names;
use run_by_steps::paths_stay_apart;

/// A module that reads and is well typed and within the limits, all of whose declarations are constants and functions
/// that print them, and whose marked constants are declared as names of constants, is a program as it stands on the way
/// of a run (`read`). The first use of such a program that becomes a form is as steps over it ask (`first`), and each
/// step is one over a name (`over`). After a step that passes no limit it is such a program again (`kept`).
pub fn printed_steps_keep()
    ensures read { law.ReadModulesArePrintedPrograms }
    ensures first { law.FirstUsesAreRight }
    ensures over { law.StepsAreOverNames }
    ensures kept { law.PrintedStepsKeep }
{
    printed_steps_avoid_few_names();
    printed_packages_are_plain();
    steps_stay_printed();
    printed_steps_are_over();
    printed_uses_stand();
    first_uses_are_typed();
    constants_names_stand();
    packages_have_own_names();
    added_imports_may_be_declared();
    constants_settle();
    marks_stay_named();
    members_are_linked();
    read_marks_are_named();
    read_modules_are_ready();
    runs_over_constants_keep();
    paths_stay_apart();
}
