//! The law of uses that stand alone.

ghost use Rattle.printed_constants.specs.TypedParts.StandingUses.LoneUses.Laws.{ConstantUsesStandAlone};

use member_uses::possible_uses::parts_are_among_all;

/// In a file that reads from its text the first use of a constant that becomes a form is the one name among the parts
/// that may be uses that stands at its span; so it is found among them by that (Go specification, Operands; Qualified
/// identifiers).
pub fn constant_uses_stand_alone()
    ensures { ConstantUsesStandAlone }
{
    parts_are_among_all();
}
