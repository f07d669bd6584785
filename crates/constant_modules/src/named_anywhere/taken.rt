//! Laws of steps of a run over constants in declarations of every form, at the places that their uses have with the
//! imports added.

ghost use Rattle.constant_modules.specs.NamedAnywhere.TakenLaws as law;

/// A step over a constant that is declared as a name, in a declaration of any form whose parts are known, leaves
/// packages that are one program with those before; so it leaves well-typed packages, and the last program of a run of
/// such steps means what the first does.
pub fn names_are_taken_anywhere()
    ensures steps { law.StepsAnywhereKeepTheProgram }
    ensures typed { law.StepsAnywhereStayTyped }
    ensures runs { law.RunsAnywhereMeanTheSame }
{}
