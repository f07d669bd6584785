//! Tokens spell one tree at most.

ghost use Rattle.std.specs.Prelude.{◌≡◌, Bool, true, false, List, []};
ghost use Rattle.go_tree.specs.declared.spans.Span.{Span};
ghost use Rattle.go_tree.specs.declared.tokens.Token.{Token};
ghost use Rattle.go_tree.specs.Tree.{TypeExpr, Expr, Stmt};
ghost use Rattle.go_tree.specs.File.{File};
ghost use Rattle.go_read.specs.SpellsSpans.{span_to};
ghost use Rattle.go_read.specs.SpellsTypes.{Lexemes, SpellsType};
ghost use Rattle.go_read.specs.Spells.{SpellsOperand, SpellsStmt};
ghost use Rattle.go_read.specs.SpellsFiles.{SpellsFront, SpellsFile};
ghost use Rattle.go_read.specs.Bareness.{nowhere};
ghost use Rattle.go_read.specs.Follows.{is_dotted, ends_expr, Plain, closes_stmt};

/// The tokens of a text spell one file at most.
#[tactic(auto, using(crate::proofs::Whole::file_one))]
pub fn one_file()
    ensures one { (tokens : List Token) (f g : File Span) → SpellsFile tokens f → SpellsFile tokens g → f ≡ g }
{}

/// Tokens spell one tree at most, each node with its span, before tokens that don't go on with it.
#[tactic(auto, using(crate::proofs::Whole::type_one, crate::proofs::Whole::operand_one, crate::proofs::Whole::stmt_one))]
pub fn one_tree()
    ensures of_type { (t u : TypeExpr Span) (tokens rest : Lexemes) → is_dotted rest ≡ false →
        SpellsType span_to t tokens rest → SpellsType span_to u tokens rest → t ≡ u }
    ensures of_expression { (header : Bool) (e i : Expr Span) (tokens rest : Lexemes) → Plain header rest →
        ends_expr rest ≡ true → SpellsOperand span_to 1 header e tokens rest →
        SpellsOperand span_to 1 header i tokens rest → e ≡ i }
    ensures of_statement { (x y : Stmt Span) (tokens rest : Lexemes) → closes_stmt rest ≡ true →
        SpellsStmt span_to x tokens rest → SpellsStmt span_to y tokens rest → x ≡ y }
{}

/// The same of trees without spans.
#[tactic(auto, using(crate::proofs::Whole::type_one, crate::proofs::Whole::operand_one, crate::proofs::Whole::stmt_one, crate::proofs::Whole::front_one))]
pub fn one_bare_tree()
    ensures of_type { (t u : TypeExpr (Unit {0})) (tokens rest : Lexemes) → is_dotted rest ≡ false →
        SpellsType nowhere t tokens rest → SpellsType nowhere u tokens rest → t ≡ u }
    ensures of_expression { (header : Bool) (e i : Expr (Unit {0})) (tokens rest : Lexemes) → Plain header rest →
        ends_expr rest ≡ true → SpellsOperand nowhere 1 header e tokens rest →
        SpellsOperand nowhere 1 header i tokens rest → e ≡ i }
    ensures of_statement { (x y : Stmt (Unit {0})) (tokens rest : Lexemes) → closes_stmt rest ≡ true →
        SpellsStmt nowhere x tokens rest → SpellsStmt nowhere y tokens rest → x ≡ y }
    ensures of_file { (f g : File (Unit {0})) (tokens : Lexemes) → SpellsFront nowhere f tokens [] →
        SpellsFront nowhere g tokens [] → f ≡ g }
{}
