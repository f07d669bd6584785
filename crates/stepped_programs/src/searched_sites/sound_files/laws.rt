//! The law of searches in files of well-typed programs.

ghost use Rattle.stepped_programs.specs.SearchedSites.SoundFiles.Laws.{TypedFilesAreSound};

use printed_constants::typed_parts::well_typed_files_are_scoped;

/// In a well-typed program each file is as searches ask of its declarations; it is left open here what a table tells of
/// the keys of composite literals.
pub fn typed_files_are_sound()
    ensures { TypedFilesAreSound }
{
    well_typed_files_are_scoped();
}
