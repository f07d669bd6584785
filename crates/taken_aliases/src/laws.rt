//! Laws of steps over aliases and constants at the places that their uses have with the imports added.

ghost use Rattle.taken_aliases.specs.Laws.{AliasStepsKeepTheProgram, ImportingAliasesAreTaken, RunsMeanTheSame};
ghost use Rattle.taken_aliases.specs.Laws.{StepsStayReady, StepsStayTyped};

use printed_constants::typed_parts::marked_runs::constants_keep_cycles;

/// A step of a run over an alias leaves packages that are one program with those before, also where
/// its imports put the packages in another order (`steps`); so a step over a constant or an alias
/// leaves well-typed packages (`typed`), and the last program of a run of such steps means what the
/// first does (`runs`). What names mean at a place is told with it, so it is another place once
/// imports are added; a step that alias_runs speaks of is such a step (`old`).
pub fn aliases_are_taken()
    ensures old { ImportingAliasesAreTaken }
    ensures steps { AliasStepsKeepTheProgram }
    ensures typed { StepsStayTyped }
    ensures runs { RunsMeanTheSame }
{}

/// Where such a step settles its file in a program that is ready and well typed, it leaves one that is.
pub fn steps_stay_ready()
    ensures { StepsStayReady }
{
    constants_keep_cycles();
}
