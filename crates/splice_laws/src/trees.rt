//! Tokens that spell a file, with those of one node replaced.

ghost use Rattle.std.specs.Prelude.{◌≡◌, ℕ, List, []};
ghost use Rattle.go_tree.specs.declared.spans.Span.{Span};
ghost use Rattle.go_tree.specs.declared.tokens.Token.{Token};
ghost use Rattle.go_tree.specs.declared.tokens.Comment.{Comment};
ghost use Rattle.go_tree.specs.GoWords.Tokens.{TokensOf};
ghost use Rattle.go_tree.specs.GoWords.Terminals.{lexemes};
ghost use Rattle.go_tree.specs.File.{File};
ghost use Rattle.go_tree.specs.FileBare.{bare_file};
ghost use Rattle.go_read.specs.SpellsTypes.{Lexemes};
ghost use Rattle.go_read.specs.SpellsFiles.{SpellsFront};
ghost use Rattle.go_read.specs.SpellsSpans.{span_to};
ghost use Rattle.go_read.specs.Bareness.{nowhere};
ghost use Rattle.splice_laws.specs.Swaps.{Swap, FileIn};
ghost use Rattle.splice_laws.specs.Replaced.{Replaced, respan, starts_rise};

/// Where tokens spell a file, and a second file is the first with one node replaced, the old node's tokens stand
/// among them at the node's span, and the tokens with others in their place spell the second file, spans aside,
/// wherever those others spell the new node in that place. A type that several names share stands once, so it is
/// replaced for each of them; the tokens of a text start one behind the other, by which groups are told apart (Go
/// specification, Types, Expressions, Statements, Source file organization).
#[tactic(auto, using(crate::proofs::Files::replaced, crate::proofs::Rises::tokens_rise))]
pub fn nodes_are_replaced()
    ensures with_spans { (w : Swap Span) (f g : File Span) (tokens : Lexemes) → SpellsFront span_to f tokens []
        → starts_rise tokens → FileIn w f g
        → Replaced span_to w tokens (λ others. SpellsFront nowhere (bare_file g) others []) }
    ensures starts_rise { (text : List ℕ) (tokens : List Token) (comments : List Comment)
        → TokensOf text tokens comments → starts_rise (lexemes tokens) }
{}

/// What tokens spell without spans, they spell with spans: a file that is the same without them; and the spans of the
/// tokens change nothing of a tree without spans.
#[tactic(auto, using(crate::proofs::Marks::front_marked, crate::proofs::Respans::front_respan))]
pub fn spans_are_found()
    ensures marked { (f : File (Unit {0})) (tokens rest : Lexemes) → SpellsFront nowhere f tokens rest
        → (g : File Span) × (bare_file g ≡ f) × SpellsFront span_to g tokens rest }
    ensures other_spans { (at : ℕ → Span) (f : File (Unit {0})) (tokens rest : Lexemes)
        → SpellsFront nowhere f tokens rest → SpellsFront nowhere f (respan at tokens) (respan at rest) }
{}
