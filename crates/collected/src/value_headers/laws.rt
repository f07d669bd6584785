//! The laws of the literals of values, and of the bodies of functions.

ghost use Rattle.collected.specs.ValueHeaders.SpelledDecls.{PackagesReadAreSpelled, ReadValuesAreSpelled};
ghost use Rattle.collected.specs.ValueHeaders.SpelledDecls.{HeadersAreSpelled, ReadBodiesAreFormed};

/// The literals of all values that a file declares are well spelled where it reads from a text; so are those of
/// packages of such files, and of the headers of such packages (Go specification, Integer literals; Rune literals;
/// String literals).
pub fn read_values_are_spelled()
    ensures files { ReadValuesAreSpelled }
    ensures packages { PackagesReadAreSpelled }
    ensures headers { HeadersAreSpelled }
{}

/// The bodies of all functions and methods that a file declares are formed as the grammar has them where it reads from a
/// text: their names and literals are tokens, and only simple statements stand in headers (Go specification, Function
/// declarations; Method declarations; Statements).
pub fn read_bodies_are_formed()
    ensures { ReadBodiesAreFormed }
{}
