//! Laws of packages of the same declarations under other imports.

ghost use Rattle.order_runs.specs.ImportCodes.Laws.{DeclarationsAreTypedAlike, DeclareTheSame};
ghost use Rattle.order_runs.specs.ImportCodes.Laws.{HeadersKeepTheirCode, PackagesKeepTheirCode};
ghost use Rattle.order_runs.specs.ImportCodes.Laws.{ImportedCodeStays, StayWellTyped};

/// Packages whose files have other imports declare the same, and their headers and bodies are typed
/// alike, if each identifier is the name of the same package, or of none; so they stay well typed
/// beside all further packages, where their imports are right again.
pub fn other_imports_are_typed_alike()
    ensures declared { DeclareTheSame }
    ensures typed { DeclarationsAreTypedAlike }
    ensures well_typed { StayWellTyped }
{}

/// A header keeps its code under other imports, where each name means what it meant; so packages
/// whose files have other imports make the same kernel program, also beside further packages.
pub fn other_imports_keep_the_code()
    ensures headers { HeadersKeepTheirCode }
    ensures packages { PackagesKeepTheirCode }
    ensures stays { ImportedCodeStays }
{}
