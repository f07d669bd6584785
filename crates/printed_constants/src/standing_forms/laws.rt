//! Laws of files with the form of a use in its place.

ghost use Rattle.printed_constants.specs.StandingForms.Laws.{FirstUsesAreTyped, FirstUsesHaveNext, FormsNameNoImport};

use crate::declared_members::constants_name_members;
use crate::typed_parts::marked_runs::{constants_come_next, forms_of_constants_are_put};
use crate::typed_parts::well_typed_files_are_dotted;
use run_by_steps::step_texts_are_read;

/// In a program that is ready there is a next program of the first use of a constant that is declared as a name: its
/// new text is read. So what is proved of steps is known of the use before its new text is read (Go specification,
/// Source file organization).
pub fn first_uses_have_next()
    ensures { FirstUsesHaveNext }
{
    step_texts_are_read();
    forms_of_constants_are_put();
    constants_come_next();
}

/// In a well-typed program the form of a use of a constant, where it is written without the name of a package, is at
/// the use the name of no import: it is that of a member or a predeclared name, and nothing shadows it (Go
/// specification, Declarations and scope).
pub fn forms_name_no_import()
    ensures { FormsNameNoImport }
{
    constants_name_members();
}

/// So the file of the first use of such a constant is typed, as standing_uses asks, before the step and with the form
/// in its place, where all declarations are constants, and functions that print them (Go specification, Constant
/// declarations; Qualified identifiers).
pub fn first_uses_are_typed()
    ensures { FirstUsesAreTyped }
{
    step_texts_are_read();
    forms_of_constants_are_put();
    constants_come_next();
    constants_name_members();
    well_typed_files_are_dotted();
}
