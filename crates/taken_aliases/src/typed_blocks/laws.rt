//! Laws of the blocks of well-typed programs.

ghost use Rattle.taken_aliases.specs.TypedBlocks.Laws.{BlocksHaveNoInit, ImportsMayBeDeclared, NamesAreNotInit};

/// In a program whose headers are typed, as those of a well-typed one are, no name of the package block of
/// a package is `init` (`block`); so none is by which a place of a file names a member of such a package
/// (`names`).
pub fn members_are_not_init()
    ensures block { BlocksHaveNoInit }
    ensures names { NamesAreNotInit }
{}

/// In a well-typed program each import of a file may be declared: its name is new to the file, none of the
/// package block, and not `init`.
pub fn imports_may_be_declared()
    ensures { ImportsMayBeDeclared }
{}
