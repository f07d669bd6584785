//! The laws of what constants are declared as.

ghost use Rattle.printed_constants.specs.DeclaredConstants.Laws as law;

use crate::typed_parts::marked_runs::{read_marks_are_named, read_modules_are_ready};
use crate::{
    constants_name_members, printed_packages_are_plain, printed_runs_keep, steps_stay_printed,
};
use constant_steps::place_meanings::files_have_their_names;

/// In a well-typed program of constants and of functions that print them, a name of a package block that means a
/// constant to the rules of typing is declared by a constant. So what a marked constant is declared as, a name alone or
/// one behind the name of an import, is the name of a constant, unless it is predeclared. In a module that reads a mark
/// of a constant that is declared as a predeclared name is bad, so each marked one is declared as a constant's name.
pub fn declared_constants_name_constants()
    ensures members { law.ConstantsAreDeclared }
    ensures named { law.DeclaredConstantsNameConstants }
    ensures none { law.ReadConstantsAreNotPredeclared }
    ensures read { law.ReadConstantsNameConstants }
{
    constants_name_members();
    files_have_their_names();
    printed_packages_are_plain();
    read_marks_are_named();
    read_modules_are_ready();
    steps_stay_printed();
}

/// So a run over constants from a module that reads, is well typed and within the limits, all of whose declarations are
/// constants and functions that print them, and all of whose marks are of constants, keeps typing, which marked
/// functions lie on a cycle, and the meaning, and so does its inlining. Nothing is asked of what the constants are
/// declared as.
pub fn printed_modules_keep()
    ensures runs { law.PrintedModulesKeepRuns }
    ensures inlinings { law.PrintedModulesKeepInlinings }
{
    declared_constants_name_constants();
    printed_runs_keep();
}
