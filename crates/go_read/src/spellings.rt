//! What holds of each spelling.

ghost use Rattle.std.specs.Prelude.{◌≡◌, ℕ, Bool, List, [], ◌++◌};
ghost use Rattle.go_tree.specs.Bare.{bare_type, bare_expr, bare_stmt};
ghost use Rattle.go_tree.specs.File.{File};
ghost use Rattle.go_tree.specs.FileBare.{bare_file};
ghost use Rattle.go_read.specs.Spells.{SpellsOperand, SpellsStmt};
ghost use Rattle.go_read.specs.SpellsFiles.{SpellsFront, SpellsFile};
ghost use Rattle.go_read.specs.SpellsSpans.{span_to};
ghost use Rattle.go_tree.specs.GoWords.Terminals.{lexemes};
ghost use Rattle.go_read.specs.SpellsTypes.{Lexemes, SpellsType};
ghost use Rattle.go_tree.specs.Tree.{TypeExpr, Expr, Stmt};
ghost use Rattle.go_tree.specs.declared.spans.Span.{Span};
ghost use Rattle.go_tree.specs.declared.tokens.Token.{Token};
ghost use Rattle.go_read.specs.Bareness.{nowhere};

/// The tokens that spell a part stand at the front of those that it is read from.
#[tactic(auto, using(crate::proofs::Spelled::type_in_front, crate::proofs::Spelled::operand_in_front, crate::proofs::Spelled::stmt_in_front, crate::proofs::Spelled::file_in_front))]
pub fn spellings_stand_in_front()
    ensures of_type { (t : TypeExpr Span) (tokens rest : Lexemes) → SpellsType span_to t tokens rest →
        (front : Lexemes) × (tokens ≡ front ++ rest) }
    ensures of_expression { (level : ℕ) (header : Bool) (e : Expr Span) (tokens rest : Lexemes) →
        SpellsOperand span_to level header e tokens rest → (front : Lexemes) × (tokens ≡ front ++ rest) }
    ensures of_statement { (x : Stmt Span) (tokens rest : Lexemes) → SpellsStmt span_to x tokens rest →
        (front : Lexemes) × (tokens ≡ front ++ rest) }
    ensures of_front { (f : File Span) (tokens rest : Lexemes) → SpellsFront span_to f tokens rest →
        (front : Lexemes) × (tokens ≡ front ++ rest) }
{}

/// What spells a tree spells it without its spans too.
#[tactic(auto, using(crate::proofs::Spelled::type_aside, crate::proofs::Spelled::operand_aside, crate::proofs::Spelled::stmt_aside, crate::proofs::Spelled::file_aside))]
pub fn spans_aside()
    ensures of_type { (t : TypeExpr Span) (tokens rest : Lexemes) → SpellsType span_to t tokens rest →
        SpellsType nowhere (bare_type t) tokens rest }
    ensures of_expression { (level : ℕ) (header : Bool) (e : Expr Span) (tokens rest : Lexemes) →
        SpellsOperand span_to level header e tokens rest →
        SpellsOperand nowhere level header (bare_expr e) tokens rest }
    ensures of_statement { (x : Stmt Span) (tokens rest : Lexemes) → SpellsStmt span_to x tokens rest →
        SpellsStmt nowhere (bare_stmt x) tokens rest }
    ensures of_file { (tokens : List Token) (f : File Span) → SpellsFile tokens f →
        SpellsFront nowhere (bare_file f) (lexemes tokens) [] }
{}
