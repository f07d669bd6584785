//! Laws of steps over names of types.

ghost use Rattle.put_names.specs.PutTypes.Laws.{AliasesBecomeTypeNames, TypeNamesArePutBySteps, TypeNamesSettleFiles};

/// A step over a name of a type that its declaration writes, not the type of a receiver, nor of a
/// composite literal in a header, which becomes a name of a type, lays the new name out in the place
/// of a node of its file (`put`), so what kept_imports and read_imports ask of a step's form holds of it; and so
/// cycle_runs' `SettlesFile` does, where what that asks besides holds (`settle`).
pub fn type_names_are_put_by_steps()
    ensures put { TypeNamesArePutBySteps }
    ensures settle { TypeNamesSettleFiles }
{}

/// An alias that is declared as a type's name, with the name of a package before it or without,
/// becomes a name of a type at such a use.
pub fn aliases_become_type_names()
    ensures { AliasesBecomeTypeNames }
{}
