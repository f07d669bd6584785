//! The law of looks.

ghost use Rattle.stepped_programs.specs.SearchedSites.LookedFiles.Laws.{LooksTellFiles};

/// Where a file stands in a program whose packages these are, a look at it tells of the file as it stands what
/// searched_sites asks (`IsFile`): its tree, its comments, its names with the table of its scopes, and the numbers of the
/// packages that it imports (Go specification, Declarations and scope; Import declarations).
pub fn looks_tell_files()
    ensures { LooksTellFiles }
{}
