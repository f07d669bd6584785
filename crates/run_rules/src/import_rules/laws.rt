//! Laws of imports.

ghost use Rattle.run_rules.specs.ImportRules.Needs.{OneNameIsNeeded};
ghost use Rattle.run_rules.specs.ImportRules.SettledLaws.{SettledAscend, SettledBytesStay, SettledInOrder, SettledKeeps};
ghost use Rattle.run_rules.specs.ImportRules.SettledLaws.{SettledWithin};
ghost use Rattle.run_rules.specs.ImportRules.SettledNames.{AddedNamesAreDistinct, AddedNamesAreNew, NeededNamesMean};
ghost use Rattle.run_rules.specs.ImportRules.SettledNames.{NeededNamesMeanAt};
ghost use Rattle.run_rules.specs.ImportRules.Unused.{StandingNamesAreUsed, UsedImportsStay, UsedNamesMeanAt};

/// At a place of a file a package has one name.
pub fn one_name_is_needed()
    ensures { OneNameIsNeeded }
{}

/// The edits that settle a file's imports stand in order and never overlap, within the text and
/// behind the package name. Each byte outside their ranges stays.
pub fn settled_edits_stand_in_order()
    ensures in_order { SettledInOrder }
    ensures within { SettledWithin }
    ensures ascend { SettledAscend }
    ensures keeps { SettledKeeps }
    ensures bytes_stay { SettledBytesStay }
{}

/// The names that are needed at a place, one after another, mean their packages there once the
/// imports are settled: the added ones are there, and no import that serves one is removed.
pub fn needed_names_mean_their_packages()
    ensures in_environments { NeededNamesMean }
    ensures at_places { NeededNamesMeanAt }
{}

/// The names that are added for a place differ, and clash with no name of the file, its imports and
/// its package, and none that is bound.
pub fn added_names_clash_with_none()
    ensures distinct { AddedNamesAreDistinct }
    ensures new { AddedNamesAreNew }
{}

/// A name that stands in a file with the meaning of an import uses it. Where the imports lie in their text, and those
/// go that were used before a step and aren't afterwards, none goes that serves a name that is used afterwards; so the
/// names that are needed at a place mean their packages there.
pub fn used_imports_stay()
    ensures standing { StandingNamesAreUsed }
    ensures stay { UsedImportsStay }
    ensures mean { UsedNamesMeanAt }
{}
