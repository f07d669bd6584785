//! Laws of names in files that read from texts.

ghost use Rattle.translation_rules.specs.SourceNames.Laws.{FramesOfReadPackagesAreKept, IdentifiersAreSpelled};
ghost use Rattle.translation_rules.specs.SourceNames.Laws.{NamesInReadPackagesAreSpelled};

/// Each local name of packages whose files read from texts is an identifier, which begins with a letter. So the names
/// of temporaries and of result slots hide none, and the terms of such packages keep the frames of deferred literals:
/// a variable that one names from outside lives in a cell, or is never assigned.
pub fn local_names_are_spelled()
    ensures identifiers { IdentifiersAreSpelled }
    ensures packages { NamesInReadPackagesAreSpelled }
    ensures frames { FramesOfReadPackagesAreKept }
{}
