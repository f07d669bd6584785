//! The law of runs among constants and functions that print them.

ghost use Rattle.printed_constants.specs.PrintedRuns.Laws.{PrintedInliningsKeep, PrintedRunsKeep, RunsStayWithin};

use crate::named_uses::constants_names_stand;
use crate::typed_parts::marked_runs::{
    added_imports_may_be_declared, constants_settle, marks_stay_named, read_marks_are_named,
    read_modules_are_ready, runs_over_constants_keep, runs_over_marks_keep,
};
use crate::used_imports::printed_imports_are_used;
use constant_steps::form_imports::packages_have_own_names;

/// A run over constants from a module that reads, is well typed and within the limits, all of whose declarations are
/// constants and functions that print them, and whose marked constants are declared as names of constants, keeps
/// typing, which marked functions lie on a cycle, and the meaning. Of its steps nothing is asked but that their texts
/// are within the limit; the inlining of such a module passes no limit at any step, so of it nothing is asked.
pub fn printed_runs_keep()
    ensures within { RunsStayWithin }
    ensures runs { PrintedRunsKeep }
    ensures inlinings { PrintedInliningsKeep }
{
    packages_have_own_names();
    added_imports_may_be_declared();
    constants_names_stand();
    constants_settle();
    marks_stay_named();
    printed_imports_are_used();
    read_marks_are_named();
    read_modules_are_ready();
    runs_over_constants_keep();
    runs_over_marks_keep();
}
