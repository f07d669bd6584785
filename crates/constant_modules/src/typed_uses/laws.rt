//! Laws of uses of marked constants in typed programs.

ghost use Rattle.constant_modules.specs.TypedUses.Laws as law;

use printed_constants::forms_name_no_import;
use printed_constants::typed_parts::marked_runs::constants_settle;
use printed_constants::typed_parts::well_typed_files_are_dotted;

/// In a well-typed program whose marks are all of constants each use is an expression, whatever else the program
/// declares: a written type that names a constant isn't typed (Go specification, Types; Operands).
pub fn constant_uses_are_expressions()
    ensures { law.ConstantUsesAreExpressions }
{}

/// So is the use of each step of a run over such a program (Go specification, Operands; Qualified identifiers).
pub fn steps_use_expressions()
    ensures { law.StepsUseExpressions }
{}

/// So the first use of such a program that becomes a form uses a constant which is declared as a name, where the names
/// to avoid are few (Go specification, Constant declarations; Qualified identifiers).
pub fn first_uses_use_constants()
    ensures { law.FirstUsesUseConstants }
{}

/// And each step is over a marked constant as keyed_imports asks, where besides what names and keys mean is kept in the
/// file as it is read again (Go specification, Import declarations; Package clause).
pub fn steps_are_over_names()
    ensures { law.StepsAreOverNames }
{}

/// At its place the use of a step is a name of the marked constant, exported where the name of a package stands before
/// it: what isn't exported isn't typed there (Go specification, Qualified identifiers; Exported identifiers).
pub fn steps_use_members()
    ensures { law.StepsUseMembers }
{
    constants_settle();
}

/// Of what typing gives of the file of such a use, standing_uses' `AreTyped`, all but what it asks with the form in its
/// place holds whatever the program declares (Go specification, Declarations and scope; Qualified identifiers).
pub fn first_uses_are_typed_before()
    ensures { law.FirstUsesAreTypedBefore }
{
    forms_name_no_import();
    well_typed_files_are_dotted();
}
