//! A call against its called literal.

ghost use Rattle.go_kernel.specs.Laws.{CallIsItsLiteral};

/// Under free prices a call of a free function means what its called literal means, with all parameters bound to the
/// arguments.
/// The premises are that free functions have ranks along their calls, and that a function's code names its parameters
/// alone.
pub fn call_is_its_literal()
    ensures { CallIsItsLiteral }
{}
