//! The laws of runs over marked constants.

ghost use Rattle.printed_constants.specs.TypedParts.MarkedRuns.Laws.{NamedMarksLieOnNoCycle, RunsOverMarksKeep};

use crate::typed_parts::marked_runs::kept_marks::marks_stay_named;
use crate::typed_parts::marked_runs::named_marks::read_marks_are_named;
use crate::typed_parts::marked_runs::ready_modules::read_modules_are_ready;
use crate::typed_parts::marked_runs::settled_constants::constants_settle;
use crate::typed_parts::marked_runs::sound_imports::added_imports_may_be_declared;
use crate::typed_parts::marked_runs::taken_names::{names_are_taken, runs_over_constants_keep};

/// Where all marks are of constants, no marked function lies on a cycle. A run over marked constants, from a module that
/// reads and is well typed and whose marks are all of constants, keeps typing, which marked functions lie on a cycle,
/// and the meaning: what its steps use is told by the module as read.
pub fn runs_over_marks_keep()
    ensures cycles { NamedMarksLieOnNoCycle }
    ensures runs { RunsOverMarksKeep }
{
    added_imports_may_be_declared();
    constants_settle();
    read_modules_are_ready();
    read_marks_are_named();
    marks_stay_named();
    names_are_taken();
    runs_over_constants_keep();
}
