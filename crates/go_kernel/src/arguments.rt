//! Laws of arguments that take their parameters' places: an argument is then evaluated where its parameter is used.

ghost use Rattle.go_kernel.specs.ChosenLaws.{ActingArgumentMoves, CallMovesItsSafeSet, CarefulListServes};
ghost use Rattle.go_kernel.specs.ChosenLaws.{LookingArgumentMoves, SafeSetMoves, SteadyArgumentMoves};

/// An argument that can't panic and looks at the frame alone may stand wherever its parameter is used, in loops and
/// deferred literals too.
pub fn steady_argument_moves()
    ensures { SteadyArgumentMoves }
{}

/// An argument that can't panic and changes nothing may stand where its parameter is used,
/// if the body writes nothing, or lists all uses before any write.
pub fn looking_argument_moves()
    ensures { LookingArgumentMoves }
{}

/// Any argument may stand where its parameter is used, if the body uses it once and lists this use before any read,
/// failure or write.
pub fn acting_argument_moves()
    ensures { ActingArgumentMoves }
{}

/// A safe set of arguments in their parameters' places, and the others bound, mean what all of them bound at once mean.
pub fn safe_set_moves()
    ensures { SafeSetMoves }
{}

/// A set of arguments that is safe by a list of items which ends earlier than the body's own,
/// or has further reads, failures and writes, is safe by the body's own list.
pub fn careful_list_serves()
    ensures { CarefulListServes }
{}

/// Under free prices a call of a free function means its called literal with a safe set of arguments in place,
/// where classes and items are read off the kernel terms of the arguments and of the function's body.
pub fn call_moves_its_safe_set()
    ensures { CallMovesItsSafeSet }
{}
