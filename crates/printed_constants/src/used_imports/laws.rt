//! The law of imports that are used.

ghost use Rattle.printed_constants.specs.UsedImports.Laws.{LookedUpImportsAreUsed, StepsLeaveImportsUsed};
ghost use Rattle.printed_constants.specs.UsedImports.Laws.{TypedImportsAreLookedUp};

use crate::typed_parts::marked_runs::constants_settle;

/// In a well-typed program of constants, and of functions that print them, the name of each import but `_` is looked
/// up in its file (`looked`); where it is, the import is used (`used`). So each is after a step over a constant
/// (`stay`): one that stays was used before, and would have gone if it weren't used any more; one that comes stands in
/// the form (Go specification, Import declarations; Qualified identifiers).
pub fn printed_imports_are_used()
    ensures looked { TypedImportsAreLookedUp }
    ensures used { LookedUpImportsAreUsed }
    ensures stay { StepsLeaveImportsUsed }
{
    constants_settle();
}
