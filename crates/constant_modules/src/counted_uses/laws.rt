//! The laws of imports that typing counts as used.

ghost use Rattle.constant_modules.specs.CountedUses.Laws as law;
ghost use Rattle.constant_modules.specs.CountedUses.Steps as of_steps;

use crate::kept_uses::imports_read_again_are_used;
use printed_constants::typed_parts::marked_runs::{
    members_are_linked, settled_imports_may_be_declared,
};

/// In a program whose declarations are typed, whatever its files import, names of imports stand before dots alone
/// (`dotted`), and each import that a file uses is one that typing counts as used there, also beside further packages
/// (`counted`): so where each import is used, each is used as typing has it (`used`). In files that read from their texts
/// no member of a group of constants has a type without values (`read`), as is asked (Go specification, Import
/// declarations; Qualified identifiers; Constant declarations).
pub fn used_imports_are_counted()
    ensures dotted { law.TypedFilesAreDotted }
    ensures counted { law.UsedImportsAreCounted }
    ensures used { law.AllUsedAreCounted }
    ensures read { law.ReadFilesHaveValues }
{}

/// With the form of a step over a constant in its place, in a well-typed program, the declarations are typed, whatever
/// the files import (`between`), and so they are after the step (`after`): that the imports are right isn't asked. So in
/// the declaration of the use literals of functions have types, and with the form in its place keys of literals of
/// structs are names, as kept_uses asks (`literals`) (Go specification, Declarations and scope; Composite literals).
pub fn declarations_stay_typed()
    ensures between { of_steps.DeclarationsAreTypedBetween }
    ensures after { of_steps.DeclarationsStayTyped }
    ensures literals { of_steps.LiteralsStandThere }
{}

/// So after such a step each import is used as typing has it, beside all further packages (`used`), whatever keys have
/// its name; so the step takes its name as named_anywhere has it, where that the imports are right at last is asked no
/// more (`takes`) (Go specification, Import declarations; Composite literals).
pub fn imports_stay_used()
    ensures used { of_steps.ImportsStayUsed }
    ensures takes { of_steps.StepsTakeNames }
{
    imports_read_again_are_used();
    settled_imports_may_be_declared();
    members_are_linked();
    used_imports_are_counted();
}
