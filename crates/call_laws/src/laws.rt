//! Laws of calls that see arguments alike.

ghost use Rattle.call_laws.specs.Laws.{CallsSeeAlike};

/// What a call gives, by what is called and its arguments.
pub fn calls_see_alike()
    ensures { CallsSeeAlike }
{}
