//! Laws of bodies in place.

ghost use Rattle.form_meaning.specs.FormInPlace.Laws.{OperandsAlike, PlacesAlike, UsesAlike, BodiesAlike};
ghost use Rattle.form_meaning.specs.FormInPlace.Laws.{CallIsItsLiteral, CallUsesAlike};

/// What is written for a body at another place is typed there as the body is: the same operands and
/// places, and of the names that it declares it uses the same.
pub fn written_body_is_typed_alike()
    ensures operands { OperandsAlike }
    ensures places { PlacesAlike }
    ensures uses { UsesAlike }
    ensures bodies { BodiesAlike }
{}

/// A call of a typed function is the operand that its called literal is: the literal of what is
/// written for the function, with all parameters bound to the arguments of the call; and it uses
/// the same names of the function around.
pub fn call_is_the_operand_of_its_literal()
    ensures operand { CallIsItsLiteral }
    ensures uses { CallUsesAlike }
{}
