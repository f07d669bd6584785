//! Laws of forms: what may stand for a called literal and for a deferred call.

ghost use Rattle.go_kernel.specs.FormLaws.{BodyIsBlock, DeferredCallIsItsLiteral, DeferredCallMovesItsSafeSet};
ghost use Rattle.go_kernel.specs.FormLaws.{ReturnIsItsExpression, TailIntoSlotsIsBlock, TailIsBlock};

/// A called literal whose body is one `return` of an expression is the expression,
/// if this gives as many values as there are results, names none of the results and doesn't recover.
pub fn return_is_its_expression()
    ensures { ReturnIsItsExpression }
{}

/// A called literal without results whose body has no `return`, `defer` or `recover` is a block.
pub fn body_is_block()
    ensures { BodyIsBlock }
{}

/// Where a called literal is all that a `return` returns, the block of its body with its returns turned into the
/// caller's
/// may stand for the `return`. Here the caller's results stand in the frame.
pub fn tail_is_block()
    ensures { TailIsBlock }
{}

/// The same where the caller's results have names and may live in variables that pointers or deferred literals reach.
pub fn tail_into_slots_is_block()
    ensures { TailIntoSlotsIsBlock }
{}

/// A deferred call is the deferred literal with the same evaluated operands.
pub fn deferred_call_is_its_literal()
    ensures { DeferredCallIsItsLiteral }
{}

/// A deferred call is the deferred literal with a safe set of steady arguments in their parameters' places.
pub fn deferred_call_moves_its_safe_set()
    ensures { DeferredCallMovesItsSafeSet }
{}
