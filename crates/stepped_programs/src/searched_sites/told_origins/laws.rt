//! The law of origins that are told.

ghost use Rattle.stepped_programs.specs.SearchedSites.ToldOrigins.Laws.{OriginsAreTold};

use member_uses::possible_uses::parts_are_among_all;

/// In a file that reads from its text a use of a constant is found among the parts of its declaration by where it
/// stands, with where it comes from in the file as read (Go specification, Operands; Qualified identifiers).
pub fn origins_are_told()
    ensures { OriginsAreTold }
{
    parts_are_among_all();
}
