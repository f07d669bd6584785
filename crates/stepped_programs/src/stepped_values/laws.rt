//! The law of marked constants after a step.

ghost use Rattle.stepped_programs.specs.SteppedValues.Laws.{MarkedValuesStay};

use constant_modules::keyed_imports::keyed_marks_stay_named;
use printed_constants::constants_name_members;
use printed_constants::typed_parts::well_typed_files_are_scoped;

/// In well-typed programs a table that tells what marked constants are declared as tells the same, before a step and
/// after it, of each but those in the declaration of the use: a name alone is that of no import there, and the name of
/// a package stays that of the same package, whatever imports the step adds and removes (Go specification, Import
/// declarations; Qualified identifiers). So the flags of settled files may stay set, but those of files that use one
/// of these.
pub fn marked_values_stay()
    ensures { MarkedValuesStay }
{
    well_typed_files_are_scoped();
    constants_name_members();
    keyed_marks_stay_named();
}
