//! Imports settled in a text.

ghost use Rattle.splice_laws.specs.ImportSplices.SettledReads.{UnusedGo, UnusedGoAgain, UnusedStayUndotted};
ghost use Rattle.splice_laws.specs.ImportSplices.SettledReads.{SettledGo, SettledGoAgain, SettledStayUndotted};
ghost use Rattle.splice_laws.specs.ImportSplices.SettledReads.{FormSettledGo, FormSettledGoAgain};

/// A text that reads as a file, without the bytes that go with its unused imports, reads as the file without these
/// imports: a spec, or a declaration from `import` on, through a written semicolon, with the whole lines where only
/// blanks share them; and a group as a whole where all its specs go and no comment stands in it. In that file too no
/// selector stands on an integer literal, so other changes may follow.
#[tactic(auto, using(crate::proofs::ImportSplices::Files::unused_stay_undotted))]
pub fn unused_imports_go()
    ensures reads { UnusedGo }
    ensures again { UnusedGoAgain }
    ensures undotted { UnusedStayUndotted }
{}

/// A text that reads as a file, with its imports settled, reads as the file without the unused imports and with the
/// added ones, by path and then name. Where the last declaration is a group before whose `)` only blanks stand on its
/// line, they are its last specs, each on a line of its own; else each is a declaration of its own, on a line before
/// the first declaration or what goes with it, or behind the package name and an empty line where there is none. All
/// edits are made at once. In that file too no selector stands on an integer literal (Go specification, Import
/// declarations, Semicolons).
#[tactic(auto, using(crate::proofs::ImportSplices::Grown::settled_stay_undotted))]
pub fn imports_are_settled()
    ensures reads { SettledGo }
    ensures again { SettledGoAgain }
    ensures undotted { SettledStayUndotted }
{}

/// A text that reads as a file, with its imports settled and the layout of another node in place of a node's span, all
/// of it by edits that are made at once, reads as the file with that node replaced and its imports settled. Of the
/// node the same is asked as where it alone is put in.
#[tactic(auto)]
pub fn forms_and_imports_are_read_at_once()
    ensures together { FormSettledGo }
    ensures again { FormSettledGoAgain }
{}
