//! Laws of steps over aliases as expressions.

ghost use Rattle.taken_aliases.specs.PutCalls.Laws.{AliasesBecomeTypeExpressions, CalledAliasesSettleFiles};
ghost use Rattle.taken_aliases.specs.PutCalls.Laws.{TypeExpressionsArePut, TypeExpressionsArePutBySteps};
ghost use Rattle.taken_aliases.specs.PutCalls.Laws.{TypeExpressionsSettleFiles};
ghost use Rattle.run_rules.specs.Run.{here_of};

/// In a file that reads from its text each well-formed type is put in the place of a name that is what
/// is called, as `(*T)`, `[]T` or `map[K]V`, by the edit that writes it there; so it is in the place of
/// another operand, but for a type whose text ends in one that begins with `[`, `map` or `struct`,
/// directly before `(`, `,` or `)`.
pub fn type_expressions_are_put()
    ensures { TypeExpressionsArePut here_of }
{}

/// A step over a name that becomes such a type lays that out in the place of a node of its file (`put`);
/// so it settles its file, where what cycle_runs' `SettlesFile` asks besides holds (`settle`).
pub fn type_expressions_are_put_by_steps()
    ensures put { TypeExpressionsArePutBySteps }
    ensures settle { TypeExpressionsSettleFiles }
{}

/// An alias becomes at such a use the type that it is declared as, if the names that the form has for
/// packages are identifiers (`shape`). So in a program whose packages can be written such a step settles
/// its file (`settle`).
pub fn aliases_become_type_expressions()
    ensures shape { AliasesBecomeTypeExpressions }
    ensures settle { CalledAliasesSettleFiles }
{}
