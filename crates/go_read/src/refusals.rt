//! How far a file is read.

ghost use Rattle.std.specs.Prelude.{◌≡◌, ℕ, [], Some, None};
ghost use Rattle.go_tree.specs.declared.spans.Span.{Span};
ghost use Rattle.go_tree.specs.File.{File};
ghost use Rattle.go_read.specs.SpellsSpans.{span_to};
ghost use Rattle.go_read.specs.SpellsTypes.{Lexemes};
ghost use Rattle.go_read.specs.SpellsFiles.{SpellsFront};
ghost use Rattle.go_read.specs.Fronts.{IsLongestFront, HasNoFront, IsRefusedAt};
ghost use Rattle.go_read.specs.Goals.{read_front};
ghost use Rattle.go_read.specs.Reading.{at};

/// The longest front of the tokens that is a package clause, whole imports and whole declarations,
/// each with its semicolon, is read, and nothing where there is none; and there is one at most.
#[tactic(auto, using(crate::proofs::Whole::front_is_longest, crate::proofs::Whole::no_front, crate::proofs::Whole::longest_is_read, crate::proofs::Whole::one_longest))]
pub fn fronts_are_longest()
    ensures longest { (f : File Span) (tokens rest : Lexemes) → at span_to read_front tokens ≡ Some (f, rest) →
        IsLongestFront tokens rest }
    ensures none { (tokens : Lexemes) → at span_to read_front tokens ≡ None → HasNoFront tokens }
    ensures found { (tokens rest : Lexemes) → IsLongestFront tokens rest →
        (f : File Span) × (at span_to read_front tokens ≡ Some (f, rest)) }
    ensures one { (tokens rest other : Lexemes) → IsLongestFront tokens rest → IsLongestFront tokens other →
        rest ≡ other }
{}

/// Tokens that spell no file are refused at one place, and those that spell one at none.
#[tactic(auto, using(crate::proofs::Whole::refused_once, crate::proofs::Whole::refused_spells_none, crate::proofs::Whole::refused_somewhere))]
pub fn refusals_have_one_place()
    ensures one { (size : ℕ) (tokens : Lexemes) (p q : ℕ) → IsRefusedAt size tokens p → IsRefusedAt size tokens q →
        p ≡ q }
    ensures some { (size : ℕ) (tokens : Lexemes) → ((f : File Span) → SpellsFront span_to f tokens [] → ⊥) →
        (p : ℕ) × IsRefusedAt size tokens p }
    ensures refused { (size : ℕ) (tokens : Lexemes) (p : ℕ) → IsRefusedAt size tokens p → (f : File Span) →
        SpellsFront span_to f tokens [] → ⊥ }
{}
