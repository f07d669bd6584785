//! The tokens and comments of a text with a span replaced.

ghost use Rattle.std.specs.Prelude.{◌≡◌, ℕ, ◌+◌, true, List, [], ◌∷◌, ◌++◌, None};
ghost use Rattle.go_tree.specs.declared.spans.Span.{Span};
ghost use Rattle.go_tree.specs.declared.tokens.Token.{Token};
ghost use Rattle.go_tree.specs.declared.tokens.Comment.{Comment};
ghost use Rattle.go_tree.specs.GoWords.Tokens.{TokensOf, size_of, tokens_from, comments_from, pieces_size};
ghost use Rattle.go_tree.specs.GoWords.Tokens.Pieces.{Piece};
ghost use Rattle.text_edits.specs.Applied.{applied};
ghost use Rattle.splice_laws.specs.Joints.{InnerEnd, LastEnds, Parted, Fitting, begin_of, span_within, due_behind};
ghost use Rattle.splice_laws.specs.Joints.{dots_apart, Spans};
ghost use Rattle.splice_laws.specs.Spots.{Spot};

/// A text in parts has the tokens and comments of its parts; and where a span of it begins and ends with whole
/// tokens, it is parted at that span, if no integer and no dot stands directly before a dot (Go specification,
/// Tokens, Semicolons).
#[tactic(auto, using(crate::proofs::Splices::parted_tokens, crate::proofs::Spots::spot))]
pub fn tokens_stand_in_parts()
    ensures has { (text mark : List ℕ) (before inside behind : List Piece) (tail : List ℕ)
        → Parted text mark before inside behind tail
        → TokensOf text (tokens_from (size_of mark) None (before ++ (inside ++ behind)))
        (comments_from (size_of mark) (before ++ (inside ++ behind))) }
    ensures at_tokens { (text : List ℕ) (tokens : List Token) (comments : List Comment)
        (front node back : List Token) (last : Token) (span : Span) → TokensOf text tokens comments
        → tokens ≡ front ++ (node ++ back) → Spans node last span → dots_apart front ≡ true
        → Spot text tokens comments front node back last span }
{}

/// A text with the parts within a span replaced by others that fit is in these parts: any others, also none, at the
/// end of a line, beside a comment, and at the end of the text. In the place of whole tokens, its tokens are those
/// before the span, the new ones, and those that the parts behind it give; its comments are those before, the new
/// ones, and those behind.
#[tactic(auto, using(crate::proofs::Splices::spliced, crate::proofs::Spots::put))]
pub fn spans_are_replaced()
    ensures parted { (text mark : List ℕ) (before inside behind : List Piece) (tail : List ℕ)
        → Parted text mark before inside behind tail → (new bytes : List ℕ) (pieces : List Piece)
        → Fitting new pieces tail behind bytes → InnerEnd before → LastEnds before (new ++ tail)
        → Parted (applied text (record { span = span_within mark before inside; text = bytes } ∷ [])) mark before
        pieces behind tail }
    ensures at_tokens { (text : List ℕ) (tokens : List Token) (comments : List Comment)
        (front node back : List Token) (last : Token) (span : Span) (s : Spot text tokens comments front node back
        last span)
        (new bytes : List ℕ) (pieces : List Piece) → Fitting new pieces s.tail s.behind bytes
        → LastEnds s.before (new ++ s.tail)
        → TokensOf (applied text (record { span = span; text = bytes } ∷ []))
        (front ++ tokens_from (begin_of s.mark s.before) (due_behind (size_of s.mark) None s.before)
        (pieces ++ s.behind))
        (comments_from (size_of s.mark) s.before
        ++ (comments_from (begin_of s.mark s.before) pieces
        ++ comments_from (begin_of s.mark s.before + pieces_size pieces) s.behind)) }
{}
