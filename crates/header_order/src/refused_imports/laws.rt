//! The law of the uses of a file.

ghost use Rattle.header_order.specs.RefusedImports.Laws.{UsesAreOfFiles};

/// A declaration of a file uses a name, as go_types says of a program, where a header of that file does (Go
/// specification, Import declarations).
pub fn uses_are_of_files()
    ensures { UsesAreOfFiles }
{}
