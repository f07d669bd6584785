//! The law of files that stay settled.

ghost use Rattle.stepped_programs.specs.SteppedValues.Flags.{SettledFlagsStay};

use crate::searched_sites::settled_files_stay;
use crate::stepped_values::held_programs::programs_are_held;
use crate::stepped_values::laws::marked_values_stay;

/// Where all that is kept of a program is its own before a step and after it, files that are settled stay so, but that
/// of the step and those that are known to use a constant of the declaration in which the use stands (Go specification,
/// Constant declarations; Declarations and scope).
pub fn settled_flags_stay()
    ensures { SettledFlagsStay }
{
    programs_are_held();
    marked_values_stay();
    settled_files_stay();
}
