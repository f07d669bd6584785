//! Laws of the names of packages.

ghost use Rattle.put_names.specs.WrittenNames.Laws.{AddedImportsAreWritable, NamesAreIdentifiers, ReadModulesAreNamed};
ghost use Rattle.put_names.specs.WrittenNames.Laws.{StepsKeepNames};

/// Where the packages of a program have identifiers for their names, so have all that a step's form names; and the
/// imports that it adds can be written.
pub fn names_are_identifiers()
    ensures names { NamesAreIdentifiers }
    ensures imports { AddedImportsAreWritable }
{}

/// The packages of a module that reads have identifiers for their names, and a step keeps the names and the paths of
/// packages.
pub fn packages_stay_named()
    ensures read { ReadModulesAreNamed }
    ensures stay { StepsKeepNames }
{}
