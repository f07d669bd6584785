//! Congruence: parts of a program may be replaced by parts of equal meaning.

ghost use Rattle.go_kernel.specs.Laws.{PartsMayBeReplaced};

/// Where parts of any functions are replaced, in any number of places, by parts that mean the same there, the two
/// programs show the same under free prices: for every main function, list of choices and budget.
/// The premises are that free functions have ranks along their calls, below the length of chains that cost nothing.
pub fn parts_may_be_replaced()
    ensures { PartsMayBeReplaced }
{}
