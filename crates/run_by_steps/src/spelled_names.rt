//! The law of the identifiers of files.

ghost use Rattle.run_by_steps.specs.SpelledNames.Laws.{IdentifiersAreNamed, ReadNamesAreIdentifiers};

/// Each identifier of a file that reads from a text is an identifier in UTF-8, since it is the name of a token; so none
/// holds the byte 0, and none stands for a package in a form.
pub fn spelled_names_are_identifiers()
    ensures read { ReadNamesAreIdentifiers }
    ensures named { IdentifiersAreNamed }
{}
