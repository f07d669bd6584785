//! Whole numbers of a kind.

ghost use Rattle.std.specs.Prelude.{◌≡◌, ◌<◌, ℤ, ◌+ℤ◌, ◌*ℤ◌};
ghost use Rattle.std.specs.Int.RustNames.{unsigned_abs};
ghost use Rattle.go_kernel.specs.Values.{Kind};
ghost use Rattle.go_kernel.specs.Ops.{Quotient, Remainder};
ghost use Rattle.go_kernel.specs.Numbers.{wrap, division, IsOfKind, SameBits};

/// Arithmetic wraps (Go specification, "Integer overflow"): wrapping gives a number of the kind with
/// the same lowest bits, and keeps each number that the kind has.
#[tactic(auto, using(crate::proofs::Wrapping::wrap_of_kind, crate::proofs::Wrapping::wrap_same_bits, crate::proofs::Wrapping::wrap_keeps))]
pub fn numbers_wrap()
    ensures of_kind { (k : Kind) (z : ℤ) → IsOfKind k (wrap k z) }
    ensures same_bits { (k : Kind) (z : ℤ) → SameBits k (wrap k z) z }
    ensures keeps { (k : Kind) (z : ℤ) → IsOfKind k z → wrap k z ≡ z }
{}

/// Quotient and remainder belong together (Go specification, "Integer operators"): the dividend is
/// the quotient times the divisor and the remainder, which is smaller than the divisor.
#[tactic(auto, using(crate::proofs::Wrapping::quotient_and_remainder, crate::proofs::Wrapping::remainder_smaller))]
pub fn quotients_truncate()
    ensures dividend { (a b : ℤ) → division Quotient a b *ℤ b +ℤ division Remainder a b ≡ a }
    ensures smaller { (a b : ℤ) → 0 < unsigned_abs b → unsigned_abs (division Remainder a b) < unsigned_abs b }
{}
