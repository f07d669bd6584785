//! The laws of searches in such files.

ghost use Rattle.stepped_programs.specs.SearchedSites.TypedSearches.Laws.{TablesServePrograms, TypedFilesAreSearchable};

use crate::typed_files_are_sound;
use constant_modules::constant_programs::constant_programs_stay;
use told_literals::right_tables_tell_fields;

/// Each file of a well-typed program that reads may be searched (`IsSearchable`), where its texts are within the limit of
/// a run: few names aren't new in it, and its declarations are as searches ask (Go specification, Identifiers; Import
/// declarations).
pub fn typed_files_are_searchable()
    ensures { TypedFilesAreSearchable }
{
    constant_programs_stay();
    typed_files_are_sound();
}

/// A table that has the types which such a program declares tells which keys of its composite literals name fields (Go
/// specification, Composite literals; Types).
pub fn tables_serve_programs()
    ensures { TablesServePrograms }
{
    right_tables_tell_fields();
    typed_files_are_sound();
}
