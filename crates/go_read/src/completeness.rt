//! What is spelled is read.

ghost use Rattle.std.specs.Prelude.{◌≡◌, Bool, true, false, List, [], Some};
ghost use Rattle.go_tree.specs.declared.spans.Span.{Span};
ghost use Rattle.go_tree.specs.declared.tokens.Token.{Token};
ghost use Rattle.go_tree.specs.Tree.{TypeExpr, Expr, Stmt};
ghost use Rattle.go_tree.specs.File.{File};
ghost use Rattle.go_tree.specs.GoWords.Terminals.{lexemes};
ghost use Rattle.go_read.specs.SpellsSpans.{span_to};
ghost use Rattle.go_read.specs.SpellsTypes.{Lexemes, SpellsType};
ghost use Rattle.go_read.specs.Spells.{SpellsOperand, SpellsStmt};
ghost use Rattle.go_read.specs.SpellsFiles.{SpellsFront, SpellsFile};
ghost use Rattle.go_read.specs.Bareness.{nowhere};
ghost use Rattle.go_read.specs.Follows.{is_dotted, ends_expr, Plain, closes_stmt};
ghost use Rattle.go_read.specs.Goals.{read_type, read_operand, read_stmt, read_front};
ghost use Rattle.go_read.specs.Reading.{at};

/// A type that tokens spell is read of them, where no name after a dot follows (Go specification, Types).
#[tactic(auto, using(crate::proofs::Whole::type_read))]
pub fn types_are_read()
    ensures with_spans { (t : TypeExpr Span) (tokens rest : Lexemes) → SpellsType span_to t tokens rest →
        is_dotted rest ≡ false → at span_to read_type tokens ≡ Some (t, rest) }
    ensures bare { (t : TypeExpr (Unit {0})) (tokens rest : Lexemes) → SpellsType nowhere t tokens rest →
        is_dotted rest ≡ false → at nowhere read_type tokens ≡ Some (t, rest) }
{}

/// An expression that tokens spell is read of them, where nothing follows that goes on with it (Go
/// specification, Expressions).
#[tactic(auto, using(crate::proofs::Whole::operand_read))]
pub fn expressions_are_read()
    ensures with_spans { (header : Bool) (e : Expr Span) (tokens rest : Lexemes) →
        SpellsOperand span_to 1 header e tokens rest → Plain header rest → ends_expr rest ≡ true →
        at span_to (read_operand header) tokens ≡ Some (e, rest) }
    ensures bare { (header : Bool) (e : Expr (Unit {0})) (tokens rest : Lexemes) →
        SpellsOperand nowhere 1 header e tokens rest → Plain header rest → ends_expr rest ≡ true →
        at nowhere (read_operand header) tokens ≡ Some (e, rest) }
{}

/// A statement that tokens spell is read of them, where a semicolon or a closing brace follows (Go
/// specification, Statements).
#[tactic(auto, using(crate::proofs::Whole::stmt_read))]
pub fn statements_are_read()
    ensures with_spans { (x : Stmt Span) (tokens rest : Lexemes) → SpellsStmt span_to x tokens rest →
        closes_stmt rest ≡ true → at span_to read_stmt tokens ≡ Some (x, rest) }
    ensures bare { (x : Stmt (Unit {0})) (tokens rest : Lexemes) → SpellsStmt nowhere x tokens rest →
        closes_stmt rest ≡ true → at nowhere read_stmt tokens ≡ Some (x, rest) }
{}

/// The tokens of a text spell a file exactly where the file is read of them and no token is left
/// (Go specification, Source file organization).
#[tactic(auto, using(crate::proofs::Whole::file_read, crate::proofs::Whole::file_spelled, crate::proofs::Whole::front_read))]
pub fn files_are_read()
    ensures found { (tokens : List Token) (f : File Span) → SpellsFile tokens f →
        at span_to read_front (lexemes tokens) ≡ Some (f, []) }
    ensures only { (tokens : List Token) (f : File Span) → at span_to read_front (lexemes tokens) ≡ Some (f, []) →
        SpellsFile tokens f }
    ensures bare { (f : File (Unit {0})) (tokens : Lexemes) → SpellsFront nowhere f tokens [] →
        at nowhere read_front tokens ≡ Some (f, []) }
{}
