//! Laws of steps over names.

ghost use Rattle.put_names.specs.Laws.{NamesArePutBySteps, NamesSettleFiles};
ghost use Rattle.put_names.specs.Laws.{AliasesBecomeNames, AliasesSettleFiles, ConstantsBecomeNames};
ghost use Rattle.put_names.specs.Laws.{ConstantsSettleFiles};

/// A step over a use that is a name and becomes a name lays the new name out in the place of a node of its file, so
/// what kept_imports and read_imports ask of a step's form holds of it; and so cycle_runs' `SettlesFile` does, where what
/// that asks besides holds.
pub fn names_are_put_by_steps()
    ensures put { NamesArePutBySteps }
    ensures settle { NamesSettleFiles }
{}

/// A constant that is declared as a name, with the name of a package before it or without, becomes a name at its use; so
/// in a program whose packages have identifiers for their names such a step settles its file.
pub fn constants_become_names()
    ensures named { ConstantsBecomeNames }
    ensures settle { ConstantsSettleFiles }
{}

/// An alias of a type's name becomes that name where the use is an expression, as in a conversion; so such a step
/// settles its file too.
pub fn aliases_become_names()
    ensures named { AliasesBecomeNames }
    ensures settle { AliasesSettleFiles }
{}
