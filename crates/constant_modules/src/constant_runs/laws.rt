//! The laws of programs of constants, as read and over a run.

ghost use Rattle.constant_modules.specs.ConstantRuns.FirstUses as of_uses;
ghost use Rattle.constant_modules.specs.ConstantRuns.Laws as law;
ghost use Rattle.constant_modules.specs.ConstantRuns.Runs as of_runs;

use crate::apart_keys::{keys_apart_are_found, steps_keep_keys_apart, steps_put_names};
use crate::constant_names::marked_constants_name_constants;
use crate::few_names::steps_avoid_few_names;
use crate::keyed_imports::{keyed_marks_stay_named, steps_keep_uses};
use crate::named_anywhere::{
    runs_anywhere_keep, runs_over_marks_anywhere_inline, runs_over_marks_anywhere_keep,
};
use crate::named_there::{
    constant_steps_take_names, constant_uses_are_there, constants_stay_untyped,
};
use crate::typed_forms::first_uses_are_typed;
use crate::typed_uses::{first_uses_use_constants, steps_use_expressions};
use constant_steps::form_imports::packages_have_own_names;
use printed_constants::printed_runs_keep;
use printed_constants::typed_parts::marked_runs::{
    constants_settle, members_are_linked, read_marks_are_named, read_modules_are_ready,
};

/// In a module that reads no type is written for a marked constant, whichever names share its spec, since the mark of a
/// constant with a type is a bad one (Go specification, Constant declarations).
pub fn constants_are_untyped()
    ensures { law.ReadConstantsHaveNoTypes }
{}

/// So a module that reads, is well typed and within the limits, and all of whose marks are of constants, is a program of
/// constants as named_there has it (`IsOfConstants`), where no call hands on a slice, and no import has `true`, `false`,
/// `nil` or `iota` for its name where that is a key in its file: whatever else it declares (Go specification, Constant
/// declarations; Packages; Composite literals; Predeclared identifiers).
pub fn constant_programs_are_read()
    ensures { law.ReadModulesAreOfConstants }
{
    constants_are_untyped();
    keys_apart_are_found();
    marked_constants_name_constants();
    members_are_linked();
    packages_have_own_names();
    read_marks_are_named();
    read_modules_are_ready();
}

/// A step in a program of constants takes its name, but for its imports at last (`there`). The first use of such a
/// program that becomes a form is that of a constant which is declared as a name (`uses`), and its file is typed as
/// standing_uses asks, before the step and with the form in its place (`typed`): so it is before the step is known (Go specification, Constant declarations; Declarations and scope).
pub fn first_uses_are_of_constants()
    ensures there { of_uses.ConstantStepsTakeNamesThere }
    ensures uses { of_uses.FirstUsesAreOfConstants }
    ensures typed { of_uses.FirstUsesOfConstantsAreTyped }
{
    constant_uses_are_there();
    constants_settle();
    first_uses_are_typed();
    first_uses_use_constants();
    steps_avoid_few_names();
    steps_keep_uses();
    steps_put_names();
    steps_use_expressions();
}

/// After a step over a constant no marked constant is declared as a predeclared name (`none`). So a step in a program of
/// constants leaves one, if the texts stay within the limit (`kept`) (Go specification, Constant declarations; Predeclared identifiers; Declarations and scope).
pub fn constant_steps_stay()
    ensures none { law.StepsLeaveNoPredeclared }
    ensures kept { law.StepsStayOfConstants }
{
    constant_steps_take_names();
    constants_stay_untyped();
    keyed_marks_stay_named();
    marked_constants_name_constants();
    members_are_linked();
    runs_anywhere_keep();
    steps_keep_keys_apart();
}

/// So each step of a run from such a program is over a marked constant and stands as named_anywhere asks (`over`), and
/// the inlining of such a module keeps typing, which marked functions lie on a cycle, and the meaning (`keep`), and
/// leaves files that read as a module, which is well typed and means what the old one means (`inlined`): of its steps
/// nothing is asked, and keys of composite literals may have the names of imports, but for `true`, `false`, `nil` and
/// `iota` (Go specification, Packages; Import declarations; Composite literals).
pub fn constant_runs_inline()
    ensures over { of_runs.ConstantRunsAreOver }
    ensures keep { of_runs.ConstantInliningsKeep }
    ensures inlined { of_runs.ConstantModulesAreInlined }
{
    constant_programs_are_read();
    constant_steps_stay();
    constant_steps_take_names();
    printed_runs_keep();
    runs_over_marks_anywhere_inline();
    runs_over_marks_anywhere_keep();
}
