//! The laws of modules that are read.

ghost use Rattle.read_modules.specs.Laws.{ModulesAreRead, ModulesMayBeLoaded};

/// What is read from the selected files of a folder is what the folder reads as, with the texts of its files (Go
/// specification, Packages; Source file organization).
pub fn modules_are_read()
    ensures { ModulesAreRead }
{}

/// A module that was read from fewer than 2^32 files has fewer packages than that, and of each of its files its tokens
/// (Go specification, Packages).
pub fn modules_may_be_loaded()
    ensures { ModulesMayBeLoaded }
{}
