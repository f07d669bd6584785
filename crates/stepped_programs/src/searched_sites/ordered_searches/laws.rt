//! Laws of searches over packages.

ghost use Rattle.stepped_programs.specs.SearchedSites.OrderedSearches.Laws.{FilesAreSearched, LooksFindSites};
ghost use Rattle.stepped_programs.specs.SearchedSites.OrderedSearches.Laws.{SearchesFindSteps, SearchesSettleFiles};

use crate::searched_sites::{looks_tell_files, searches_find_sites};
use repeated_parts::use_search::uses_are_placed;

/// In a program that the code has (`IsHeld`) a look at a file finds its sites, and tells of it what searches ask. So
/// files that come to those that are settled, as looks at them show, are settled: none of their uses is free, and they
/// are known to use the constants of these (Go specification, Constant declarations; Declarations and scope).
pub fn searches_settle_files()
    ensures looks { LooksFindSites }
    ensures settled { SearchesSettleFiles }
{
    looks_tell_files();
    searches_find_sites();
}

/// Where packages are searched in dependency order, past files that are settled, the first free use is the one that the
/// run takes, with all that was told of it; where all files are settled, no use is free.
pub fn searches_find_steps()
    ensures files { FilesAreSearched }
    ensures steps { SearchesFindSteps }
{
    looks_tell_files();
    searches_find_sites();
    uses_are_placed();
}
