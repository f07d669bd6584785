//! Laws of the imports of a file that is read again.

ghost use Rattle.put_names.specs.ReadImports.Laws.{ImportsAreKept, NamesAreKept, OtherImportsStay};

/// A step that adds no imports leaves those that it doesn't remove, in their order, with the same
/// names and paths; where it removes none either, its file keeps its imports. Where none that it
/// removes has the name of an identifier, each identifier keeps its import.
pub fn imports_are_read_again()
    ensures stay { OtherImportsStay }
    ensures kept { ImportsAreKept }
    ensures names { NamesAreKept }
{}
