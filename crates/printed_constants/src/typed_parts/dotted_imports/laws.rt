//! Laws of the names of imports in well-typed files.

ghost use Rattle.printed_constants.specs.TypedParts.DottedImports.Laws.{WellTypedFilesAreDotted, WellTypedFilesStand};

use crate::typed_parts::scoped_parts::well_typed_files_are_scoped;

/// In a well-typed program each of whose packages stands in the dependency order, names of imports stand before dots
/// alone. So each declaration of a file that reads from its text is as import_uses asks it, and the uses of imports in
/// it can be counted (Go specification, Qualified identifiers).
pub fn well_typed_files_are_dotted()
    ensures dotted { WellTypedFilesAreDotted }
    ensures stand { WellTypedFilesStand }
{
    well_typed_files_are_scoped();
}
