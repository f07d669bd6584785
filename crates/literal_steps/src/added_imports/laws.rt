//! Laws of calls whose literals add imports.

ghost use Rattle.literal_steps.specs.AddedImports.Laws.{AddedNamesAreNew, AddedPackagesServe};
ghost use Rattle.literal_steps.specs.AddedImports.Laws.{BracesStayAlike, BracesStayTyped, PlacesInBracesAfter};
ghost use Rattle.literal_steps.specs.AddedImports.Laws.{CallsMeanLiteralsAfter, DeferredCallsMeanLiteralsAfter};
ghost use Rattle.literal_steps.specs.AddedImports.Laws.{LiteralsAreTypedAfter, LiteralsAreTypedBeside};
ghost use Rattle.literal_steps.specs.AddedImports.Laws.{DeferStatementsAreTypedAfter, DeferStatementsMeanAlikeAfter};
ghost use Rattle.literal_steps.specs.AddedImports.Laws.{FilesBetweenHaveImports, NamesAroundStand};
ghost use Rattle.literal_steps.specs.AddedImports.Laws.{NamesAtTopAfter, PlacesInFileAfter};
ghost use Rattle.literal_steps.specs.AddedImports.Laws.{StatementsAreTypedAfter, StatementsMeanAlikeAfter};
ghost use Rattle.literal_steps.specs.AddedImports.Laws.{StatementsStayAlikeBehind, StatementsStayTypedBehind};
ghost use Rattle.literal_steps.specs.AddedImports.Laws.{UsesMeanLiteralsAfter};

/// The names of the imports that the literal of a call adds are new in its file; so at the place of the
/// literal in the file with these imports, each package that the function names has a name that serves.
/// The names that are declared around a use which a run takes stand in its file.
pub fn added_names_serve()
    ensures names { AddedNamesAreNew }
    ensures served { AddedPackagesServe }
    ensures around { NamesAroundStand }
{}

/// At the top of the file with the imports that the literal of a call adds, the added names mean their
/// packages, and all others what they did; so the place of the call is, in this file, the place of the
/// literal. The file with the literal and these imports put in at once is such a file, among packages
/// that declare the same.
pub fn files_with_imports_mean_more()
    ensures names { NamesAtTopAfter }
    ensures between { FilesBetweenHaveImports }
    ensures places { PlacesInFileAfter }
{}

/// In well-typed packages a call in its file is typed as the literal is in the file with the imports that
/// it adds, and means it under free prices; deferred, it means the deferred literal. Ranks are those of
/// the marked functions that lie on no cycle.
pub fn calls_mean_literals_with_imports()
    ensures beside { LiteralsAreTypedBeside }
    ensures typed { LiteralsAreTypedAfter }
    ensures meaning { CallsMeanLiteralsAfter }
    ensures deferred { DeferredCallsMeanLiteralsAfter }
    ensures ranked { UsesMeanLiteralsAfter }
{}

/// So an expression statement that is the call, with the statements after it, is typed as the one that is
/// the literal in the file with the imports, and its term is that one's, but for parts that mean the same;
/// so is a statement that defers the call.
pub fn call_statements_mean_literals()
    ensures typed { StatementsAreTypedAfter }
    ensures terms { StatementsMeanAlikeAfter }
    ensures deferred { DeferStatementsAreTypedAfter }
    ensures deferred_terms { DeferStatementsMeanAlikeAfter }
{}

/// Statements that stand so to others, behind a statement that declares nothing stand so too.
pub fn statements_stay_behind()
    ensures typed { StatementsStayTypedBehind }
    ensures terms { StatementsStayAlikeBehind }
{}

/// So do statements in braces, within which the places are again those of the call and the literal.
pub fn braces_stay()
    ensures places { PlacesInBracesAfter }
    ensures typed { BracesStayTyped }
    ensures terms { BracesStayAlike }
{}
