//! Laws of the imports of a file as a step leaves it.

ghost use Rattle.order_runs.specs.CycleRuns.KeptImports.Laws.{FilesAreSettled, FilesImportNoMore, LookUpsAreKept};
ghost use Rattle.order_runs.specs.CycleRuns.KeptImports.Laws.{NamesAreKept};

/// Where a step's form is laid out in the place of a node, its file as read again imports what it
/// imported, but what the step removes, and what the step adds, and nothing else.
pub fn files_are_settled()
    ensures settled { FilesAreSettled }
    ensures no_more { FilesImportNoMore }
{}

/// Then each identifier of the file is the name of the same import as with the step's imports added, or
/// of none, if no import that goes has the name of an identifier that stands in the file. Each name that
/// its declarations look up is so, if no import that goes has the name of one of these: what is behind a
/// dot, or declared around its use in a body, isn't asked.
pub fn names_are_kept()
    ensures identifiers { NamesAreKept }
    ensures look_ups { LookUpsAreKept }
{}
