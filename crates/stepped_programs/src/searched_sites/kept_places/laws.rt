//! The law of places that are told once.

ghost use Rattle.stepped_programs.specs.SearchedSites.KeptPlaces.Laws.{KeptUsesAreToldOnce};

use crate::searched_sites::searches_find_sites;

/// Where none of the uses in the files of a program is free, what is told of the uses that it keeps, each place once,
/// is told file by file, in their order: of what a search found in a file, each obstacle whose use stands where none
/// before it does (Go specification, Constant declarations; golang.org/x/tools, analyzer inline, for what is
/// reported).
pub fn kept_uses_are_told_once()
    ensures { KeptUsesAreToldOnce }
{
    searches_find_sites();
}
