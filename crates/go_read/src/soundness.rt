//! What is read is spelled.

ghost use Rattle.std.specs.Prelude.{◌≡◌, ◌+◌, ◌≤◌, Bool, length, Some};
ghost use Rattle.go_tree.specs.declared.spans.Span.{Span};
ghost use Rattle.go_tree.specs.Tree.{TypeExpr, Expr, Stmt};
ghost use Rattle.go_tree.specs.File.{File};
ghost use Rattle.go_read.specs.SpellsSpans.{span_to};
ghost use Rattle.go_read.specs.SpellsTypes.{Lexemes, SpellsType};
ghost use Rattle.go_read.specs.Spells.{SpellsOperand, SpellsStmt};
ghost use Rattle.go_read.specs.SpellsFiles.{SpellsFront};
ghost use Rattle.go_read.specs.Bareness.{nowhere};
ghost use Rattle.go_read.specs.Goals.{Goal, Answer, least, read_type, read_operand, read_stmt, read_front};
ghost use Rattle.go_read.specs.Programs.{run};
ghost use Rattle.go_read.specs.Reading.{step, at};

/// What is read at the front of tokens is what one step reads there, whose parts are read in turn.
#[tactic(auto, using(crate::proofs::Sound::at_is))]
pub fn reading_is_its_step()
    ensures step { (g : Goal Span) (tokens : Lexemes) → at span_to g tokens ≡ run (at span_to) (step span_to g tokens) }
    ensures bare { (g : Goal (Unit {0})) (tokens : Lexemes) →
        at nowhere g tokens ≡ run (at nowhere) (step nowhere g tokens) }
{}

/// What is read of a type, an expression, a statement or the front of a file is spelled by the
/// tokens that it takes, each node with its span, and an answer takes its least number of tokens
/// (Go specification, Types, Expressions, Statements, Source file organization).
#[tactic(auto, using(crate::proofs::Whole::taken, crate::proofs::Whole::type_spelled, crate::proofs::Whole::operand_spelled, crate::proofs::Whole::stmt_spelled, crate::proofs::Whole::front_spelled))]
pub fn reading_is_sound()
    ensures takes { (g : Goal Span) (tokens : Lexemes) (x : Answer g) (rest : Lexemes) →
        at span_to g tokens ≡ Some (x, rest) → length rest + least g ≤ length tokens }
    ensures of_type { (t : TypeExpr Span) (tokens rest : Lexemes) → at span_to read_type tokens ≡ Some (t, rest) →
        SpellsType span_to t tokens rest }
    ensures of_expression { (header : Bool) (e : Expr Span) (tokens rest : Lexemes) →
        at span_to (read_operand header) tokens ≡ Some (e, rest) → SpellsOperand span_to 1 header e tokens rest }
    ensures of_statement { (x : Stmt Span) (tokens rest : Lexemes) → at span_to read_stmt tokens ≡ Some (x, rest) →
        SpellsStmt span_to x tokens rest }
    ensures of_front { (f : File Span) (tokens rest : Lexemes) → at span_to read_front tokens ≡ Some (f, rest) →
        SpellsFront span_to f tokens rest }
{}

/// The same of trees without spans.
#[tactic(auto, using(crate::proofs::Whole::type_spelled, crate::proofs::Whole::operand_spelled, crate::proofs::Whole::stmt_spelled, crate::proofs::Whole::front_spelled))]
pub fn reading_of_bare_trees_is_sound()
    ensures of_type { (t : TypeExpr (Unit {0})) (tokens rest : Lexemes) → at nowhere read_type tokens ≡ Some (t, rest) →
        SpellsType nowhere t tokens rest }
    ensures of_expression { (header : Bool) (e : Expr (Unit {0})) (tokens rest : Lexemes) →
        at nowhere (read_operand header) tokens ≡ Some (e, rest) → SpellsOperand nowhere 1 header e tokens rest }
    ensures of_statement { (x : Stmt (Unit {0})) (tokens rest : Lexemes) →
        at nowhere read_stmt tokens ≡ Some (x, rest) → SpellsStmt nowhere x tokens rest }
    ensures of_front { (f : File (Unit {0})) (tokens rest : Lexemes) → at nowhere read_front tokens ≡ Some (f, rest) →
        SpellsFront nowhere f tokens rest }
{}
