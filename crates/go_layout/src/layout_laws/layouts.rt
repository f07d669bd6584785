//! What holds of each layout.

ghost use Rattle.std.specs.Prelude.{◌≡◌, ℕ, Bool, false, List, Option, None};
ghost use Rattle.go_tree.specs.declared.spans.Span.{Span};
ghost use Rattle.go_tree.specs.Tree.{TypeExpr, Sig, Expr, Stmts};
ghost use Rattle.go_tree.specs.Bare.{bare_type, bare_sig, bare_expr, bare_stmts};
ghost use Rattle.go_read.specs.SpellsTypes.{Lexemes, SpellsType, SpellsSig};
ghost use Rattle.go_read.specs.Bareness.{nowhere};
ghost use Rattle.go_layout.specs.TypeLayout.{type_layout, sig_layout};
ghost use Rattle.go_layout.specs.TreeLayout.{operand_layout, stmts_layout};
ghost use Rattle.go_layout.specs.LayoutLaws.Formed.{FormedSig, FormedOperand, FormedStmts};
ghost use Rattle.go_layout.specs.LayoutLaws.LayoutTokens.{HasTokens};
ghost use Rattle.go_layout.specs.LayoutLaws.Laws.{SpellsWithin, SpellsList};

/// A layout is the same for two trees that differ in their spans alone.
#[tactic(auto, using(crate::proofs::LayoutLaws::WrittenTrees::type_unseen, crate::proofs::LayoutLaws::WrittenTrees::sig_unseen, crate::proofs::LayoutLaws::WrittenTrees::operand_unseen, crate::proofs::LayoutLaws::WrittenTrees::stmts_unseen))]
pub fn layouts_see_no_spans()
    ensures of_type { (t : TypeExpr Span) → type_layout (bare_type t) ≡ type_layout t }
    ensures of_signature { (g : Sig Span) → sig_layout (bare_sig g) ≡ sig_layout g }
    ensures of_expression { (e : Expr Span) (indent : List ℕ) (level : ℕ) (header closed : Bool) →
        operand_layout indent level header closed (bare_expr e) ≡ operand_layout indent level header closed e }
    ensures of_statements { (xs : Stmts Span) (indent : List ℕ) (end : Option (List ℕ)) →
        stmts_layout indent end (bare_stmts xs) ≡ stmts_layout indent end xs }
{}

/// The tokens of a well-formed tree's layout, where a newline that ends a statement is a semicolon, spell the tree,
/// whatever follows them: an expression in any place that needs at most the level and the header rule that it is
/// written for (Go specification, Types, Expressions, Statements, Semicolons).
#[tactic(auto, using(crate::proofs::LayoutLaws::SpelledTypes::type_spelled, crate::proofs::LayoutLaws::SpelledTypes::sig_spelled, crate::proofs::LayoutLaws::WrittenTrees::within_spelled, crate::proofs::LayoutLaws::OpenStmts::list_spelled))]
pub fn layouts_spell_their_trees()
    ensures of_type { (t : TypeExpr (Unit {0})) (tokens rest : Lexemes) → HasTokens (type_layout t) tokens rest →
        SpellsType nowhere t tokens rest }
    ensures of_signature { (variadic : Bool) (g : Sig (Unit {0})) (tokens rest : Lexemes) → FormedSig variadic g →
        HasTokens (sig_layout g) tokens rest → SpellsSig nowhere variadic g tokens rest }
    ensures of_expression { (e : Expr (Unit {0})) (indent : List ℕ) (level : ℕ) (header : Bool) → FormedOperand e →
        (tokens rest : Lexemes) → HasTokens (operand_layout indent level header false e) tokens rest →
        SpellsWithin level header e tokens rest }
    ensures of_statements { (xs : Stmts (Unit {0})) → FormedStmts xs → (indent : List ℕ) (tokens rest : Lexemes) →
        HasTokens (stmts_layout indent None xs) tokens rest → SpellsList xs tokens rest }
{}
