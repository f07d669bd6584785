//! Laws of marks of constants.

ghost use Rattle.printed_constants.specs.TypedParts.MarkedRuns.NamedMarks.Laws.{NamedMarksAreUsed, ReadMarksAreNamed, UsesAreMarked};

use order_runs::cycle_runs::read_modules_are_ordered;

/// The mark of a use that a step finds is one of the marks; so where each mark is that of a constant that is declared
/// as a name, each step over an expression is over a use of one, as put_names asks (`UsesConstant`).
pub fn uses_are_marked()
    ensures marked { UsesAreMarked }
    ensures used { NamedMarksAreUsed }
{}

/// In a module that reads, whose marks are all of constants, each mark is that of a constant that is declared as a
/// name, or as one with the name of a package of the module before it, since directive_scan marks no other.
pub fn read_marks_are_named()
    ensures { ReadMarksAreNamed }
{
    read_modules_are_ordered();
}
