//! The laws of how many identifiers a file has, and how many names a step avoids.

ghost use Rattle.printed_constants.specs.CountedNames.Laws as law;

/// A file of constants and of functions that print them has no more identifiers than tokens: each stands at a token of
/// its own, as no type is shared by several names (Go specification, Identifiers; Tokens).
pub fn printed_files_have_few_names()
    ensures { law.PrintedNamesAreFew }
{}

/// A text has at most two tokens for each byte (Go specification, Tokens; Semicolons); so where the texts of such a
/// program are within the limit of a run, as they are after each step that passes none, the names that a step over a
/// constant avoids, and those that a search does in each file (`files`), are fewer than 2^64. So it is of the first use
/// that becomes a form, which is that of a constant that is declared as a name (`first`).
pub fn printed_steps_avoid_few_names()
    ensures tokens { law.TokensAreFew }
    ensures few { law.SmallTextsHaveFewNames }
    ensures files { law.SmallFilesHaveFewNames }
    ensures within { law.StepsStayWithin }
    ensures total { law.StepsStayWithinTotal }
    ensures first { law.FirstUsesAreNamed }
{}
