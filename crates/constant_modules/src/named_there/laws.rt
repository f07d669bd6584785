//! The laws of uses with the imports of their forms added.

ghost use Rattle.constant_modules.specs.NamedThere.Laws as law;
ghost use Rattle.constant_modules.specs.NamedThere.Steps as of_steps;

use crate::apart_keys::steps_put_names;
use crate::counted_uses::imports_stay_used;
use crate::few_names::steps_avoid_few_names;
use crate::keyed_imports::steps_keep_uses;
use crate::typed_uses::{steps_are_over_names, steps_use_expressions};
use printed_constants::constants_name_members;
use printed_constants::typed_parts::marked_runs::constants_settle;

/// With the imports of a step added, whose names are new, the walk over a declaration of its file lists the same parts,
/// each with the same names declared around it, repeated by the same members of a group, and spelled in the same way,
/// whatever the file declares (Go specification, Import declarations; Declarations and scope; Blocks).
pub fn steps_list_the_same()
    ensures { law.StepsListTheSame }
{}

/// So in a well-typed program whose marks are all of constants that are declared as names of constants, the use of a
/// step is, with the imports of its form added, a name of the marked constant where the walk lists it, and becomes the
/// same form (`there`). So it stands as named_anywhere asks, but for its imports at last, whatever else the program
/// declares (`stand`) (Go specification, Constant declarations; Iota; Qualified identifiers; Import declarations).
pub fn constant_uses_are_there()
    ensures there { law.ConstantUsesAreThere }
    ensures stand { law.ConstantUsesStandThere }
{
    constants_name_members();
    constants_settle();
}

/// After a step no type is written for a marked constant, if none was, whichever names share its spec (Go specification,
/// Constant declarations).
pub fn constants_stay_untyped()
    ensures { law.StepsStayUntyped }
{}

/// So a step in a ready, well-typed program of constants (`IsOfConstants`) takes its name as named_anywhere has it, and
/// stands as that asks of runs over marked constants: of the use, of its place and of the imports nothing is asked any
/// more (Go specification, Constant declarations; Qualified identifiers; Import declarations).
pub fn constant_steps_take_names()
    ensures { of_steps.ConstantStepsTakeNames }
{
    steps_use_expressions();
    steps_avoid_few_names();
    constants_settle();
    steps_put_names();
    steps_keep_uses();
    steps_are_over_names();
    constant_uses_are_there();
    imports_stay_used();
}
