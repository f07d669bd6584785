//! The laws of what names of constants are declared by, and of what marked constants are declared as.

ghost use Rattle.constant_modules.specs.ConstantNames.Laws as law;

use constant_steps::place_meanings::files_have_their_names;
use printed_constants::constants_name_members;
use printed_constants::typed_parts::marked_runs::{read_marks_are_named, read_modules_are_ready};

/// In a well-typed program, whatever it declares, a name of a package block that means a constant to the rules of typing
/// is declared by a declaration of constants, which may repeat an earlier expression; and such a name means a constant,
/// or is refused (Go specification, Constant declarations; Iota; Declarations and scope).
pub fn constants_are_declared()
    ensures declared { law.ConstantsAreDeclared }
    ensures constants { law.ConstantMembersAreConstants }
{}

/// So a marked constant that is declared as a name, alone or behind the name of an import, is declared as that of a
/// constant, unless it is predeclared. In a module that reads a mark of a constant that is declared as a predeclared
/// name is bad, so each marked one is declared as a constant's name (Go specification, Predeclared identifiers).
pub fn marked_constants_name_constants()
    ensures named { law.MarkedConstantsNameConstants }
    ensures none { law.ReadConstantsAreNotPredeclared }
    ensures read { law.ReadConstantsNameConstants }
{
    constants_name_members();
    files_have_their_names();
    read_marks_are_named();
    read_modules_are_ready();
}

/// In any program the name of a constant that a group declares means a constant, or is refused, also where it repeats an
/// expression (`declared`). So a constant that is declared as such a name, and that name, mean one constant that is
/// known, as step_laws has it: of what a constant is declared as only this is needed, and not that it has an expression
/// of its own (`uses`; Go specification, Constant declarations; Iota).
pub fn member_uses_are_known()
    ensures declared { law.DeclaredConstantsAreConstants }
    ensures uses { law.MemberUsesAreKnown }
{}
