//! The law of the names that forms have for packages.

ghost use Rattle.printed_constants.specs.FormNames.Laws.{FormNamesAreNotBlank};

/// No package has the name `_` in the form of a use: an import by this name means no package, and what is added has the
/// package's own name, or that with a number behind it (Go specification, Import declarations; Blank identifier).
pub fn forms_name_no_blank()
    ensures { FormNamesAreNotBlank }
{}
