//! Laws of the bodies of functions and methods.

ghost use Rattle.checked_modules.specs.FunctionBodies.Laws.{TablesFindTheSame, TablesTellOfFunctions};
ghost use Rattle.checked_modules.specs.FunctionBodies.Walked.{PackagesReadAreWalked, ReadBodiesAreWalked};

/// Tables in which the same is found as in a world tell of each function and each method whether its body is typed
/// there, at the place of its file (Go specification, Function declarations; Method declarations).
pub fn tables_tell_of_functions()
    ensures { TablesTellOfFunctions }
{}

/// Tables find the same as a world in which names and types mean the same and the same methods are declared, and no
/// others (Go specification, Declarations and scope; Underlying types; Comparison operators; Method sets).
pub fn tables_find_the_same()
    ensures { TablesFindTheSame }
{}

/// The bodies of all functions and methods that a file declares are walked where it reads from a text, and so are those
/// in packages of such files (Go specification, Function declarations; Method declarations; Statements).
pub fn read_bodies_are_walked()
    ensures files { ReadBodiesAreWalked }
    ensures packages { PackagesReadAreWalked }
{}
