//! The laws of modules that are inlined.

ghost use Rattle.printed_constants.specs.InlinedFiles.InlinedModules.Laws as law;

use crate::declared_constants::declared_constants_name_constants;
use crate::typed_parts::marked_runs::{
    added_imports_may_be_declared, constants_settle, marks_stay_named, read_marks_are_named,
    read_modules_are_ready, runs_over_constants_keep, runs_over_marks_keep,
};
use crate::{constants_names_stand, printed_imports_are_used};
use constant_steps::form_imports::packages_have_own_names;

/// A run whose steps write their files, and which keeps typing and the meaning, inlines a module that reads and is well
/// typed: the new files read as a module, which is well typed and means what the old one means, and keep their bytes
/// outside the run's ranges.
pub fn kept_modules_are_inlined()
    ensures { law.KeptModulesAreInlined }
{}

/// Each step of a run over constants, in a program that is ready and well typed, writes its file. So such a run inlines
/// a module that reads.
pub fn runs_over_constants_inline()
    ensures write { law.RunsOverConstantsWrite }
    ensures modules { law.RunsOverConstantsInline }
{
    constants_settle();
    read_modules_are_ready();
    runs_over_constants_keep();
}

/// The same of runs over marked constants, of whose steps less is asked.
pub fn runs_over_marks_inline()
    ensures write { law.RunsOverMarksWrite }
    ensures modules { law.RunsOverMarksInline }
{
    added_imports_may_be_declared();
    constants_settle();
    marks_stay_named();
    read_marks_are_named();
    read_modules_are_ready();
    runs_over_constants_keep();
    runs_over_marks_keep();
}

/// A module of constants and of functions that print them, which reads, is well typed and within the limits, and all of
/// whose marks are of constants, is inlined by each run within the limits: nothing is asked of its steps. So the new
/// files read as a module, which is well typed and means what the old one means beside every further package, and keep
/// their bytes outside the run's ranges.
pub fn printed_modules_are_inlined()
    ensures runs { law.PrintedRunsInline }
    ensures inlinings { law.PrintedModulesAreInlined }
{
    added_imports_may_be_declared();
    constants_names_stand();
    constants_settle();
    declared_constants_name_constants();
    marks_stay_named();
    packages_have_own_names();
    printed_imports_are_used();
    read_marks_are_named();
    read_modules_are_ready();
    runs_over_constants_keep();
    runs_over_marks_inline();
}
