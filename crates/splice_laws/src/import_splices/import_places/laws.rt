//! Laws of imports that stand in a text.

ghost use Rattle.splice_laws.specs.ImportSplices.ImportPlaces.ReadFiles.{CommentsOfTextsAscend, ImportsOfReadFilesLie};
ghost use Rattle.splice_laws.specs.ImportSplices.ImportPlaces.ReadFiles.{TokensOfTextsStand};

/// The tokens of a text stand in their order within it, and its comments start in theirs. Where the tokens spell a
/// file, a file with this package name and these imports has them where its spans say.
pub fn imports_of_read_files_lie()
    ensures tokens { TokensOfTextsStand }
    ensures comments { CommentsOfTextsAscend }
    ensures laid { ImportsOfReadFilesLie }
{}
