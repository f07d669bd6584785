//! Laws of the names and the paths of packages.

ghost use Rattle.run_by_steps.specs.WrittenImports.Laws.{ImportsAreWritten, ReadPackagesAreNamed};
ghost use Rattle.run_by_steps.specs.WrittenImports.Laws.{RunsKeepPackagesNamed};

/// Each package of a module that reads has an identifier as its name and a path of octets, where the paths of its files
/// are octets; and runs keep that.
pub fn packages_are_named()
    ensures read { ReadPackagesAreNamed }
    ensures kept { RunsKeepPackagesNamed }
{}

/// So the imports that a step adds can be written: each has a path of octets, and a name that is an identifier.
pub fn imports_of_steps_are_written()
    ensures { ImportsAreWritten }
{}
