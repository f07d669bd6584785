//! The law of constants that are declared as names of constants.

ghost use Rattle.printed_constants.specs.NamedUses.Laws.{ConstantsNamesStand, StepsKeepConstantsNames};

use crate::declared_members::constants_name_members;
use crate::typed_parts::marked_runs::constants_settle;

/// Where each marked constant is declared as a name of a constant, the use of a step over one is, with the imports of
/// its form added, a name of it still, and becomes the name that it is declared as (`stand`). After the step each is
/// declared as a name of a constant again: what a name means stays, and what is put is such a name (`stay`; Go
/// specification, Constant declarations; Qualified identifiers; Exported identifiers).
pub fn constants_names_stand()
    ensures stand { ConstantsNamesStand }
    ensures stay { StepsKeepConstantsNames }
{
    constants_name_members();
    constants_settle();
}
