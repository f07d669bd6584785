//! The laws of programs that are searched.

ghost use Rattle.stepped_programs.specs.SearchedSites.KeptPrograms.Laws.{ProgramsAreOpen, SearchedProgramsStay};

/// Where all that is kept of a program is its own, each of its packages may be searched.
pub fn programs_are_open()
    ensures { ProgramsAreOpen }
{}

/// A search leaves all that is kept of a program its own.
pub fn searched_programs_stay()
    ensures { SearchedProgramsStay }
{}
