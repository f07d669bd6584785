//! Which trees are well formed.

ghost use Rattle.go_tree.specs.declared.spans.Span.{Span};
ghost use Rattle.std.specs.Prelude.{Bool};
ghost use Rattle.go_tree.specs.Tree.{TypeExpr, Sig, Expr, Stmts};
ghost use Rattle.go_tree.specs.Bare.{bare_type, bare_sig, bare_expr, bare_stmts};
ghost use Rattle.go_layout.specs.LayoutLaws.Formed.{FormedType, FormedSig, FormedOperand, FormedStmts};
ghost use Rattle.go_layout.specs.LayoutLaws.Laws.{IsSpelledType, IsSpelledSig, IsSpelledExpr, IsSpelledStmts};

/// A tree that some tokens of a text spell is well formed: its names and literals are tokens, its lists have an entry
/// where the grammar wants one, a literal of a function is called at once, and `...` stands in a call after an argument
/// and in a signature before the type of the last parameter (Go specification, Types, Expressions, Statements).
#[tactic(auto, using(crate::proofs::LayoutLaws::WrittenTrees::spelled_type, crate::proofs::LayoutLaws::WrittenTrees::spelled_stmts))]
pub fn spelled_trees_are_formed()
    ensures of_type { (t : TypeExpr Span) → IsSpelledType t → FormedType (bare_type t) }
    ensures of_signature { (variadic : Bool) (g : Sig Span) → IsSpelledSig variadic g →
        FormedSig variadic (bare_sig g) }
    ensures of_expression { (e : Expr Span) → IsSpelledExpr e → FormedOperand (bare_expr e) }
    ensures of_statements { (xs : Stmts Span) → IsSpelledStmts xs → FormedStmts (bare_stmts xs) }
{}
