//! Laws of constants and variables that are found name by name, and of headers that are refused.

ghost use Rattle.value_rounds.specs.NameRounds.Laws as law;
ghost use Rattle.value_rounds.specs.NameRounds.PassLaws as pass;

/// Single names may be found one after the other, in any order, each where its value is declared by what
/// is known then: when no value declares more, each name means what the rounds by names find.
pub fn names_are_found_step_by_step()
    ensures start { law.NoneFoundYet }
    ensures first { law.SinglesDeclareFirst }
    ensures step { law.StepFinds }
    ensures end { law.FoundIsAll }
{}

/// Behind the rounds by names headers may be refused one after the other, in any order, each where its
/// values aren't all declared by what is known then: when none is left, each name means what the rounds
/// of headers find.
pub fn headers_are_refused_step_by_step()
    ensures known { law.DeclaredAreKnown }
    ensures start { law.NoneYet }
    ensures step { law.StepRefuses }
    ensures end { law.RefusedIsAll }
{}

/// Code that begins where the names of types and of functions are known may look at one single header
/// after the other, in any order: each whose value is declared by what is known is found, and what is found
/// stays; when no value declares more, all names mean what the rounds by names find.
pub fn names_are_found_in_passes()
    ensures start { pass.NoNameYet }
    ensures step { pass.NameStep }
    ensures end { pass.NamesEnd }
{}

/// Behind that it may look at one whole header after the other, in any order: each whose values aren't
/// all declared by what is known is refused, and what is refused stays; when no header of values has to be
/// refused, all names mean what the rounds of headers find.
pub fn headers_are_refused_in_passes()
    ensures start { pass.NoHeaderYet }
    ensures step { pass.HeaderStep }
    ensures end { pass.HeadersEnd }
{}
