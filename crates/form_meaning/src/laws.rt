//! Laws of what a body in place does.

ghost use Rattle.form_meaning.specs.Laws.{MethodMeansItsLiteral, DeferredMethodMeansItsLiteral};
ghost use Rattle.form_meaning.specs.Laws.{OperandsDoTheSame, BodiesDoTheSame, CallMeansItsLiteral};
ghost use Rattle.form_meaning.specs.Laws.{DeferredMeansItsLiteral};

/// What is written for a body at another place, with all parameters bound, is the same term of the
/// kernel there: in another package, with other names around it.
pub fn written_body_does_the_same()
    ensures operands { OperandsDoTheSame }
    ensures bodies { BodiesDoTheSame }
{}

/// Under free prices a call of a free function means the called literal of what is written for the
/// function, with all parameters bound to the same arguments; a deferred call means the deferred one.
pub fn call_means_its_written_literal()
    ensures operand { CallMeansItsLiteral }
    ensures deferred { DeferredMeansItsLiteral }
{}

/// So does a call of a method, where the literal has the receiver as its first parameter and the
/// receiver's argument, with `&` and `*` written out, as its first argument.
pub fn method_call_means_its_written_literal()
    ensures operand { MethodMeansItsLiteral }
    ensures deferred { DeferredMethodMeansItsLiteral }
{}
