//! Laws of steps over constants.

ghost use Rattle.order_runs.specs.CycleLaws.ConstantCycles.Laws.{AliasStepsKeepCycles, ConstantsLieOnNoCycle};
ghost use Rattle.order_runs.specs.CycleLaws.ConstantCycles.Laws.{ConstantStepsKeepCycles, UsesPutAlike};
ghost use Rattle.order_runs.specs.CycleLaws.ConstantCycles.Laws.{QualifiedNamesNameNoFunction, TypesPutAlike};
ghost use Rattle.order_runs.specs.CycleLaws.ConstantCycles.Laws.{UnshadowedNamesNameNoFunction};
ghost use Rattle.order_runs.specs.CycleLaws.ConstantCycles.Laws.{UnobstructedConstantsNameNoFunction};

/// A constant and an alias lie on no cycle of marked functions. Where all that stands at a step's span are uses of a
/// constant, and they and the name that is put there name no function, what is put calls what stood there; so the same
/// marked functions lie on cycles after the step, if its program reads calls as the one before.
/// A type that is put for the use of an alias calls nothing, and so keeps them too.
pub fn constants_keep_cycles()
    ensures off { ConstantsLieOnNoCycle }
    ensures alike { UsesPutAlike }
    ensures types { TypesPutAlike }
    ensures kept { ConstantStepsKeepCycles }
    ensures aliases { AliasStepsKeepCycles }
{}

/// A name that isn't shadowed at a use in its own package names no function there, if it names none where it is
/// written; so does a name with its package before it, if the member that it names is no function.
/// So a constant in its own package, at a use without an obstacle, becomes a name that names no function.
pub fn names_name_no_function()
    ensures unshadowed { UnshadowedNamesNameNoFunction }
    ensures qualified { QualifiedNamesNameNoFunction }
    ensures unobstructed { UnobstructedConstantsNameNoFunction }
{}
