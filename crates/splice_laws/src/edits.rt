//! Files that are read from edited texts.

ghost use Rattle.std.specs.Prelude.{◌≡◌, ℕ, true, List, [], ◌∷◌, ◌++◌, None, length};
ghost use Rattle.go_tree.specs.declared.spans.Span.{Span};
ghost use Rattle.go_tree.specs.File.{File};
ghost use Rattle.go_tree.specs.FileBare.{bare_file};
ghost use Rattle.go_tree.specs.GoWords.Tokens.{size_of};
ghost use Rattle.go_tree.specs.GoWords.Tokens.Pieces.{Piece, is_blanks};
ghost use Rattle.splice_laws.specs.ImportTexts.{a_piece};
ghost use Rattle.go_tree.specs.GoWords.Terminals.{lexemes};
ghost use Rattle.go_read.specs.SpellsTypes.{Lexemes};
ghost use Rattle.go_read.specs.SpellsSpans.{span_to};
ghost use Rattle.go_read.specs.SpellsFiles.{SpellsFront};
ghost use Rattle.go_read.specs.Bareness.{nowhere};
ghost use Rattle.text_edits.specs.declared.edit.Edit.{Edit};
ghost use Rattle.text_edits.specs.Applied.{Ascend, applied};
ghost use Rattle.text_edits.specs.InTurn.{InTurn};
ghost use Rattle.splice_laws.specs.Joints.{InnerEnd, LastEnds, Parted, Fitting, begin_of, span_within, given};
ghost use Rattle.splice_laws.specs.Joints.{due_behind};
ghost use Rattle.splice_laws.specs.Imports.{Shortened};
ghost use Rattle.splice_laws.specs.Edited.{terminals, given_terminals, gives_semicolon};
ghost use Rattle.splice_laws.specs.Splice.{ReadsAs};

/// A text with the parts within a span replaced by others that fit reads as each file that is spelled by tokens with
/// the terminals that the new parts give. So where the parts within the span are an import spec or declaration and
/// the semicolon behind it, as on whole lines, the text without them reads as the file without it (Go specification,
/// Import declarations, Semicolons).
#[tactic(auto, using(crate::proofs::Edited::edited, crate::proofs::Edited::removed))]
pub fn edited_texts_are_read()
    ensures replaced { (text mark : List ℕ) (before inside behind : List Piece) (tail : List ℕ)
        → Parted text mark before inside behind tail → (new bytes : List ℕ) (pieces : List Piece)
        → Fitting new pieces tail behind bytes
        → InnerEnd before → LastEnds before (new ++ tail) → (f : File (Unit {0})) (tokens : Lexemes)
        → SpellsFront nowhere f tokens [] → terminals tokens ≡ given_terminals (size_of mark) before pieces behind
        → ReadsAs (applied text (record { span = span_within mark before inside; text = bytes } ∷ [])) f }
    ensures removed { (text mark : List ℕ) (before inside behind : List Piece) (tail : List ℕ)
        → Parted text mark before inside behind tail → InnerEnd before → LastEnds before tail
        → (span : Span) (f g : File Span) (tokens : Lexemes)
        → terminals tokens ≡ given_terminals (size_of mark) before inside behind
        → (s : Shortened span_to span tokens (λ others. SpellsFront nowhere (bare_file g) others []))
        → terminals s.front ≡ terminals (lexemes (given (size_of mark) None before))
        → terminals (s.node ++ s.end) ≡ terminals
        (lexemes (given (begin_of mark before) (due_behind (size_of mark) None before) inside))
        → gives_semicolon (due_behind (size_of mark) None before)
        ≡ gives_semicolon (due_behind (begin_of mark before) (due_behind (size_of mark) None before) inside)
        → ReadsAs (applied text (record { span = span_within mark before inside; text = [] } ∷ [])) (bare_file g) }
{}

/// A text that is parted behind a run of blanks is parted within it too, as at the start of a line.
#[tactic(auto, using(crate::proofs::Lines::within_blanks))]
pub fn lines_part_texts()
    ensures part { (text mark : List ℕ) (before : List Piece) (a b : List ℕ) (inside behind : List Piece)
        (tail : List ℕ) → is_blanks a ≡ true → is_blanks b ≡ true
        → Parted text mark (before ++ a_piece (a ++ b) ∷ []) inside behind tail
        → Parted text mark (before ++ a_piece a ∷ []) (a_piece b ∷ inside) behind tail }
{}

/// A text to which several edits are made together reads as what it reads as when they are made one after another,
/// each where the ones before have moved it to. So forms and imports that are put into a text by one step each may be
/// put into it at once.
#[tactic(auto, using(crate::proofs::Edited::turned))]
pub fn edits_are_made_in_turn()
    ensures together { (text new : List ℕ) (es : List Edit) (f : File (Unit {0})) → Ascend 0 (length text) es
        → InTurn text es new → ReadsAs new f → ReadsAs (applied text es) f }
{}
