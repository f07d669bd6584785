//! Laws of calls in values.

ghost use Rattle.value_calls.specs.Laws as law;

/// In a well-typed program the values of constants and package variables call types and predeclared
/// functions alone, and no function or method. So the use that a step replaces stands in a function or
/// method, where it is a call of what the rules of typing say is one; and what a step puts outside all
/// functions is an expression or a type.
pub fn values_call_no_function()
    ensures values { law.ValuesCallNoFunction }
    ensures uses { law.CallStepsStandInFunctions }
    ensures forms { law.FormsOutsideFunctions }
{}
