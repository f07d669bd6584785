//! Laws of the literal that is written for a call.

ghost use Rattle.constant_steps.specs.WrittenLiteral.Laws.{BodiesAreWritten, BodiesChangeAsTexts};
ghost use Rattle.constant_steps.specs.WrittenLiteral.Laws.{ClearCallsMeanTheirLiterals, DeclarationsAreListed};
ghost use Rattle.constant_steps.specs.WrittenLiteral.Laws.{DeferredCallsMeanTheirLiterals, LiteralsAreAlikeAtHome};
ghost use Rattle.constant_steps.specs.WrittenLiteral.Laws.{LiteralsAreWritten, NamesMeanTheSame};

/// Where no obstacle stands in the way of a typed function, what is written for it at a use, with all
/// parameters bound and all spans kept, is what may be written for it there.
pub fn unobstructed_functions_are_written()
    ensures bodies { BodiesAreWritten }
    ensures literals { LiteralsAreWritten }
{}

/// What the walk lists for a declaration is what typing binds by it; with no parameter chosen a body
/// changes as a constant's text does; and within one package literals are seen alike.
pub fn walks_list_declarations()
    ensures listed { DeclarationsAreListed }
    ensures changes { BodiesChangeAsTexts }
    ensures at_home { LiteralsAreAlikeAtHome }
{}

/// A call in whose way no obstacle stands means the literal that is written for it, under free
/// prices; so does a deferred call.
pub fn clear_calls_mean_their_literals()
    ensures operand { ClearCallsMeanTheirLiterals }
    ensures deferred { DeferredCallsMeanTheirLiterals }
{}

/// What names at the top of a file mean to a run, which tells members, imports and predeclared names
/// apart, is what they mean to the rules of typing.
pub fn names_mean_the_same()
    ensures files { NamesMeanTheSame }
{}
