//! Laws of the uses of marked constants.

ghost use Rattle.repeated_parts.specs.UseSearch.UsesOfMarks.Laws.{MarkedUsesAreSites, UsesArePlaced};

use crate::repeated_uses_are_sites;

/// In a program as it stands whose marks are all of constants, the uses of marked constants in a file are its sites: in
/// the same order, each in its declaration, at its span, with its mark and whether a later member of a group repeats it
/// (Go specification, Constant declarations). Asked of each declaration: what typing asks of literals of functions, of
/// `for` statements and of keys, and that the table of declared types tells which keys name fields.
pub fn marked_uses_are_sites()
    ensures { MarkedUsesAreSites }
{
    repeated_uses_are_sites();
}

/// Each site of such a file stands in it and has a mark of the program, and the table of the file's scopes answers at its
/// first byte what names mean at its place.
pub fn uses_are_placed()
    ensures { UsesArePlaced }
{
    repeated_uses_are_sites();
}
