//! Laws of uses among constants and functions that print them.

ghost use Rattle.printed_constants.specs.PrintedUses.Laws.{PrintedStepsAreOver, PrintedUsesAreExpressions};
ghost use Rattle.printed_constants.specs.PrintedUses.Laws.{PrintedUsesStand};

use crate::typed_parts::marked_runs::constants_settle;
use crate::used_imports::printed_imports_are_used;

/// Each use of a marked declaration in a program of constants, and of functions that print them, is an expression: no
/// types are written there (Go specification, Operands).
pub fn printed_uses_are_expressions()
    ensures { PrintedUsesAreExpressions }
{}

/// So a step of such a program whose marks are those of constants, and whose texts are within the limit of a run, is
/// one of kept_marks (Go specification, Qualified identifiers; Package clause).
pub fn printed_steps_are_over()
    ensures { PrintedStepsAreOver }
{}

/// Where the use of such a step is, with the imports of its form added, a name of a constant that is declared as
/// another's name, what marked_runs asks of the declarations around, and of the imports at last, holds (Go
/// specification, Constant declarations; Import declarations).
pub fn printed_uses_stand()
    ensures { PrintedUsesStand }
{
    constants_settle();
    printed_imports_are_used();
}
