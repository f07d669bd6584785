//! The law of programs that are kept.

ghost use Rattle.stepped_programs.specs.SteppedValues.Held.{ProgramsAreHeld};

use printed_constants::typed_parts::well_typed_files_are_scoped;

/// A program that is kept is as searches over its packages ask (searched_sites' `IsHeld`), where it is well typed, its
/// marks are those of constants that are declared as names, and each of its files may be searched: the table tells of
/// each marked constant what it is declared as, by the names of its file (Go specification, Constant declarations;
/// Qualified identifiers; Declarations and scope).
pub fn programs_are_held()
    ensures { ProgramsAreHeld }
{
    well_typed_files_are_scoped();
}
