//! Laws of methods, and of their calls that become literals of them.

ghost use Rattle.literal_steps.specs.MethodLiterals.Laws.{DeferredMethodsMeanTheirLiterals, FormsBeginWithReceivers};
ghost use Rattle.literal_steps.specs.MethodLiterals.Laws.{MethodsAreCoded, MethodsAreFound, MethodsAreTypedAlike};
ghost use Rattle.literal_steps.specs.MethodLiterals.Laws.{MethodsMeanTheirLiterals};

/// In a well-typed program the method that typing finds by its name on a type is the one that is
/// declared there, and the program has its code under its name.
pub fn methods_are_found()
    ensures found { MethodsAreFound }
    ensures code { MethodsAreCoded }
{}

/// In well-typed packages a call of a method that becomes a literal has the receiver's argument, with
/// `&` or `*` written out, as the literal's first one; both are the same operand, and mean the same
/// under free prices; deferred, the call means the deferred literal.
pub fn method_calls_mean_their_literals()
    ensures form { FormsBeginWithReceivers }
    ensures typed { MethodsAreTypedAlike }
    ensures meaning { MethodsMeanTheirLiterals }
    ensures deferred { DeferredMethodsMeanTheirLiterals }
{}
