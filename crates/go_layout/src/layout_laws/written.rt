//! What is written for a tree spells the tree.

ghost use Rattle.std.specs.Prelude.{◌≡◌, ℕ, Bool, true, List};
ghost use Rattle.go_tree.specs.declared.spans.Span.{Span};
ghost use Rattle.go_tree.specs.Tree.{TypeExpr, Sig, Expr, Stmts};
ghost use Rattle.go_tree.specs.Bare.{bare_type, bare_sig, bare_expr, bare_stmts};
ghost use Rattle.go_layout.specs.LayoutLaws.Formed.{FormedType, FormedSig, FormedOperand, FormedStmts};
ghost use Rattle.go_layout.specs.LayoutLaws.Laid.{is_indent};
ghost use Rattle.go_layout.specs.LayoutLaws.Laws.{IsSpelledType, IsSpelledSig, SigIsWritten, IsSpelledExpr, IsSpelledStmts};
ghost use Rattle.go_layout.specs.LayoutLaws.Laws.{TypeIsWritten, ExprIsWritten, StmtsAreWritten};

/// For each tree that some tokens of a text spell, the tokens of its layout's text spell the tree again: an expression
/// in
/// any place that needs at most the level and the header rule that it is written for, with an indent of spaces and
/// tabs.
/// This holds of the text by itself, and wherever it stands in front of what may follow it. No token runs into the
/// next,
/// and a semicolon is inserted exactly where a newline ends a statement (Go specification, Tokens, Semicolons).
#[tactic(auto, using(crate::proofs::LayoutLaws::WrittenTrees::lists_written))]
pub fn spelled_trees_are_written()
    ensures of_type { (t : TypeExpr Span) → IsSpelledType t → TypeIsWritten t }
    ensures of_signature { (variadic : Bool) (g : Sig Span) → IsSpelledSig variadic g → SigIsWritten variadic g }
    ensures of_expression { (e : Expr Span) → IsSpelledExpr e → (indent : List ℕ) (level : ℕ) (header : Bool) →
        is_indent indent ≡ true → ExprIsWritten e indent level header }
    ensures of_statements { (xs : Stmts Span) → IsSpelledStmts xs → (indent : List ℕ) → is_indent indent ≡ true →
        StmtsAreWritten xs indent }
{}

/// The same of each well-formed tree, as of one that is built from parts of others.
#[tactic(auto, using(crate::proofs::LayoutLaws::WrittenTrees::type_written, crate::proofs::LayoutLaws::WrittenTrees::stmts_written))]
pub fn formed_trees_are_written()
    ensures of_type { (t : TypeExpr Span) → FormedType (bare_type t) → TypeIsWritten t }
    ensures of_signature { (variadic : Bool) (g : Sig Span) → FormedSig variadic (bare_sig g) →
        SigIsWritten variadic g }
    ensures of_expression { (e : Expr Span) (indent : List ℕ) (level : ℕ) (header : Bool) →
        FormedOperand (bare_expr e) → is_indent indent ≡ true → ExprIsWritten e indent level header }
    ensures of_statements { (xs : Stmts Span) (indent : List ℕ) → FormedStmts (bare_stmts xs) →
        is_indent indent ≡ true → StmtsAreWritten xs indent }
{}
