//! Laws of steps that leave what is around their use.

ghost use Rattle.argument_cycles.specs.LeftUses.Laws as law;

/// Where a step changes nothing in what is called in the function around its use, and nothing in the values of
/// what is declared there, what is called names what it named and statements declare what they declared: that needn't
/// be asked of such a step, be its form an expression, statements or a literal. So it is of a call that is a
/// statement, is returned, stands among arguments or is assigned.
pub fn uses_leave_what_is_around()
    ensures stay { law.LeftUsesStay }
    ensures stay_there { law.LeftUsesStayThere }
{}
