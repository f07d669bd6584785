//! Laws of searches.

ghost use Rattle.stepped_programs.specs.SearchedSites.Laws.{FilesHaveSteps, KeptSitesAreTold, SearchesFindSites};
ghost use Rattle.stepped_programs.specs.SearchedSites.Laws.{SitesAreByFile};

use repeated_parts::use_search::{marked_uses_are_sites, uses_are_placed};

/// In a program as it stands whose marks are all of constants, what a search over a file answers are its sites: those that
/// are kept, each with its obstacle, up to the first that is free, with its form (Go specification, Constant
/// declarations; Qualified identifiers). What the search is told of the program and of the file is asked (`IsProgram`,
/// `IsFile`).
pub fn searches_find_sites()
    ensures sites { SearchesFindSites }
    ensures told { KeptSitesAreTold }
{
    marked_uses_are_sites();
    uses_are_placed();
}

/// The sites of a program are those of its files, in the order of packages and of paths. So where its files are searched
/// in that order, the first form that is found is that of the step that the run takes, and where none is found, no use is
/// free.
pub fn files_are_searched_in_order()
    ensures files { SitesAreByFile }
    ensures steps { FilesHaveSteps }
{}
