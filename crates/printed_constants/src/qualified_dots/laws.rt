//! The laws of dots among constants and functions that print them.

ghost use Rattle.printed_constants.specs.QualifiedDots.Laws as law;

use crate::typed_parts::standing_uses::constant_uses_stand_once;
use crate::typed_parts::well_typed_files_are_dotted;

/// In packages of constants and of functions that print them each name of a package block means a function or an
/// untyped constant, or is refused (`names`). An untyped constant has neither fields nor methods; so in a well-typed
/// program of such packages the name of an import stands before each dot (`dots`), and no dot stands behind a use of a
/// constant that a step finds (`uses`; Go specification, Constants; Selectors; Qualified identifiers).
pub fn printed_dots_are_qualified()
    ensures names { law.PrintedNamesAreUntyped }
    ensures dots { law.PrintedDotsAreQualified }
    ensures uses { law.PrintedUsesAreUndotted }
{
    constant_uses_stand_once();
    well_typed_files_are_dotted();
}
