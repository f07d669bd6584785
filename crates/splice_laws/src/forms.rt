//! A form in a text.

ghost use Rattle.std.specs.Prelude.{ℕ, Bool, List};
ghost use Rattle.go_tree.specs.declared.spans.Span.{Span};
ghost use Rattle.go_tree.specs.declared.tokens.Token.{Token};
ghost use Rattle.go_tree.specs.declared.tokens.Comment.{Comment};
ghost use Rattle.go_tree.specs.File.{File};
ghost use Rattle.go_tree.specs.FileBare.{bare_file};
ghost use Rattle.splice_laws.specs.Swaps.{Swap};
ghost use Rattle.splice_laws.specs.Fits.{swap_mark};
ghost use Rattle.splice_laws.specs.Forms.{new_layout};
ghost use Rattle.splice_laws.specs.Splice.{are_apart, first_word, splice, spliced_text, ReadsAs, ReadsWith, IsPut};
ghost use Rattle.std.specs.Prelude.{◌≡◌, true, false, drop};
ghost use Rattle.go_tree.specs.GoWords.Tokens.{TokensOf};
ghost use Rattle.go_read.specs.SpellsFiles.{SpellsFile};
ghost use Rattle.go_layout.specs.LayoutLaws.Laid.{is_indent};
ghost use Rattle.splice_laws.specs.Joints.{begins_with_dot, dots_apart, left_comments};
ghost use Rattle.splice_laws.specs.Dots.{UndottedFile};
ghost use Rattle.splice_laws.specs.Swaps.{FileIn};
ghost use Rattle.splice_laws.specs.Forms.{FormedNew, AsksOld};

/// A text that reads as a file, with the layout of another node in place of a node's span, reads as the file with
/// that node replaced, spans aside. A blank may always stand before the layout; none is needed where a token that
/// ends there and the layout's first word are read as these two. What it reads as may be any file in which no
/// selector stands on an integer literal, so forms may be put one after the other. The comments outside the span
/// remain, and no others: those before it where they stand, and those behind it where the text has moved to.
#[tactic(auto, using(crate::proofs::Laws::forms_put, crate::proofs::Laws::forms_put_again))]
pub fn forms_are_read_in_place()
    ensures put { (text : List ℕ) (tokens : List Token) (comments : List Comment) (f g : File Span) (w : Swap Span)
        (indent : List ℕ) (dotted wrapped blank : Bool) → IsPut text tokens comments f g w indent dotted wrapped blank
        → ReadsWith (spliced_text text (swap_mark w) blank (new_layout indent dotted wrapped w)) (bare_file g)
        (left_comments (splice (swap_mark w) blank (new_layout indent dotted wrapped w)) comments) }
    ensures again { (text : List ℕ) (f : File (Unit {0})) (r : ReadsAs text f) → UndottedFile f
        → (g : File Span) (w : Swap Span) (indent : List ℕ) (dotted wrapped blank : Bool)
        → FileIn w r.file g → AsksOld w → FormedNew dotted w → is_indent indent ≡ true
        → (dotted ≡ false → begins_with_dot (drop (swap_mark w).end text) ≡ false)
        → (blank ≡ false → are_apart r.tokens (swap_mark w).start (first_word (new_layout indent dotted wrapped w))
        ≡ true)
        → ReadsWith (spliced_text text (swap_mark w) blank (new_layout indent dotted wrapped w)) (bare_file g)
        (left_comments (splice (swap_mark w) blank (new_layout indent dotted wrapped w)) r.comments) }
{}

/// In a text of a file in which no selector stands on an integer literal, no integer and no dot stands directly
/// before a dot; so in each text that reads as such a file, also one that a form or an import was put into (Go
/// specification, Selectors, Integer literals).
#[tactic(auto, using(crate::proofs::TokenDots::tokens_apart, crate::proofs::Laws::dots_again))]
pub fn dots_stand_apart()
    ensures of_text { (text : List ℕ) (tokens : List Token) (comments : List Comment) (f : File Span)
        → TokensOf text tokens comments → SpellsFile tokens f → UndottedFile (bare_file f)
        → dots_apart tokens ≡ true }
    ensures again { (text : List ℕ) (f : File (Unit {0})) (r : ReadsAs text f) → UndottedFile f
        → UndottedFile (bare_file r.file) × (dots_apart r.tokens ≡ true) }
{}
