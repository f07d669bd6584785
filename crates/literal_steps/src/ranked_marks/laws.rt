//! Laws of ranks.

ghost use Rattle.literal_steps.specs.RankedMarks.Laws as law;

/// A marked function has a rank: the number of marked functions to which it leads. What leads to a
/// function that lies on no cycle has a higher rank; no rank is above the number of marked functions,
/// and that of a marked function on no cycle is below it.
pub fn functions_have_ranks()
    ensures reached { law.ReachedIsLedTo }
    ensures fall { law.RanksFall }
    ensures bounded { law.RanksAreBounded }
    ensures below { law.RanksOfOthersAreBelow }
{}

/// Each function and method that the term of a body calls or defers is named by a call in the body, if
/// the elements of the body's composite literals are typed.
pub fn code_names_what_it_calls()
    ensures { law.CodeNamesWhatItCalls }
{}

/// In the program of a well-typed module each marked function that the code of a marked function calls
/// or defers is one that its body names in a call. So the program is ranked by the marked functions that
/// lie on no cycle, and under free prices a call of one of these is its called literal.
pub fn programs_are_ranked()
    ensures calls { law.CodeCallsWhatIsLedTo }
    ensures ranked { law.ProgramsAreRanked }
    ensures meaning { law.FreeCallsMeanTheirLiterals }
{}

/// Where a run makes a literal of a call, the call means this literal under free prices, in the program of
/// the module: the function is free, since the use has no obstacle.
pub fn literal_uses_mean_their_literals()
    ensures { law.LiteralUsesMeanTheirLiterals }
{}

/// The number of marked functions bounds the ranks of a program's functions, and those of the free ones
/// are below it, as the budget of a run under free prices asks.
pub fn marks_bound_ranks()
    ensures bounded { law.FunctionRanksAreBounded }
    ensures below { law.FreeRanksAreBelow }
{}
