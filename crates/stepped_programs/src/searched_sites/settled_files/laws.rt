//! Laws of files that steps leave as they are.

ghost use Rattle.stepped_programs.specs.SearchedSites.SettledFiles.Laws.{BlocksStay, FlagsMayStay, FoundUsesTell};
ghost use Rattle.stepped_programs.specs.SearchedSites.SettledFiles.Laws.{KeptFilesStay, NamesStay};
ghost use Rattle.stepped_programs.specs.SearchedSites.SettledFiles.Laws.{OtherMarksStay, OtherValuesStay};
ghost use Rattle.stepped_programs.specs.SearchedSites.SettledFiles.Laws.{PutsChangeOne, TablesStay};

use crate::searched_sites::kept_uses_stay;
use repeated_parts::use_search::{marked_uses_are_sites, uses_are_placed};

/// A step changes no package block (`blocks`), so a table of marks stays right (`tables`), and in a file that isn't
/// that of the step all names mean what they meant (`names`).
pub fn steps_leave_other_files()
    ensures blocks { BlocksStay }
    ensures tables { TablesStay }
    ensures names { NamesStay }
{}

/// Where no use in such a file is free, and the same is told of each constant that it uses, none is free after the
/// step, and each is kept by the same obstacle (`kept`). So flags of files that are settled may stay set, but that of
/// the file of the step, and those of files that are known to use a constant of one of the declarations of whose marked
/// constants something else is told now (`flags`): those that were looked at again (`values`, `marked`, `puts`). Which
/// constants a file uses is told by the uses that a search found (`found`).
pub fn settled_files_stay()
    ensures kept { KeptFilesStay }
    ensures flags { FlagsMayStay }
    ensures values { OtherValuesStay }
    ensures marked { OtherMarksStay }
    ensures puts { PutsChangeOne }
    ensures found { FoundUsesTell }
{
    kept_uses_stay();
    marked_uses_are_sites();
    uses_are_placed();
}
