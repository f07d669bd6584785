//! Laws of steps over aliases.

ghost use Rattle.alias_runs.specs.AliasSteps.Laws.{AliasesMeanTheirText, AliasStepsMeanTheSame};
ghost use Rattle.alias_runs.specs.AliasSteps.Laws.{AliasStepsStayInPlace};
ghost use Rattle.alias_runs.specs.AliasSteps.Laws.{CalledAliasesMeanTheirText, ResolvedAliasesMeanTheirText};
ghost use Rattle.alias_runs.specs.AliasSteps.Laws.{RetypedCodesStay, RetypedPackagesMeanTheSame};
ghost use Rattle.alias_runs.specs.AliasSteps.Laws.{RunsOverNamesMeanTheSame};
ghost use Rattle.alias_runs.specs.AliasSteps.Laws.{PlainAliasesBecomeNames, PlainNamesAreFree};
ghost use Rattle.alias_runs.specs.AliasSteps.Laws.{StepsOverAliases};

/// From the declaration of an alias: a name that means it and the text of its type, written for the
/// place, are one type where the rounds of declarations end, in types and as an expression.
pub fn uses_of_aliases_stand()
    ensures resolved { ResolvedAliasesMeanTheirText }
    ensures types { AliasesMeanTheirText }
    ensures expressions { CalledAliasesMeanTheirText }
{}

/// A step at whose span such uses stand leaves the program in place, beside all further packages,
/// and its kernel program equal; so the packages mean the same, and so they do after any number of
/// such steps and of steps over constants.
pub fn alias_steps_mean_the_same()
    ensures steps { StepsOverAliases }
    ensures in_place { AliasStepsStayInPlace }
    ensures code { RetypedCodesStay }
    ensures packages { RetypedPackagesMeanTheSame }
    ensures meaning { AliasStepsMeanTheSame }
    ensures runs { RunsOverNamesMeanTheSame }
{}

/// A use of an alias in its own package, which is declared as a name of its package or of the
/// universe block, and in whose way nothing stands, becomes that name, which means there what it
/// means in the file of the alias.
pub fn plain_aliases_become_names()
    ensures form { PlainAliasesBecomeNames }
    ensures free { PlainNamesAreFree }
{}
