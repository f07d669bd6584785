//! Laws of steps over constants.

ghost use Rattle.printed_constants.specs.TypedParts.MarkedRuns.SettledConstants.Laws.{ConstantRunsKeepCycles, ConstantUsesAreNames};
ghost use Rattle.printed_constants.specs.TypedParts.MarkedRuns.SettledConstants.Laws.{ConstantUsesAreSpelled, ConstantsAddLed};
ghost use Rattle.printed_constants.specs.TypedParts.MarkedRuns.SettledConstants.Laws.{ConstantsKeepCycles};
ghost use Rattle.printed_constants.specs.TypedParts.MarkedRuns.SettledConstants.Laws.{ConstantsSettle, ConstantsWrite};
ghost use Rattle.printed_constants.specs.TypedParts.MarkedRuns.SettledConstants.Laws.{FilesOfUsesAreUndotted, LinkedPackagesAreWritable};
ghost use Rattle.printed_constants.specs.TypedParts.MarkedRuns.SettledConstants.Laws.{StepsStayReady, UsesAreScoped};

use crate::typed_parts::well_typed_files_are_scoped;

/// In a well-typed program whose files read from their texts the declaration around each use is scoped as put_names asks
/// it; where no call hands on a slice for its last arguments, the file of each use is undotted; and linked packages that
/// are named are writable.
pub fn programs_are_ready()
    ensures scoped { UsesAreScoped }
    ensures undotted { FilesOfUsesAreUndotted }
    ensures writable { LinkedPackagesAreWritable }
{
    well_typed_files_are_scoped();
}

/// A use of a constant is a name, none of whose identifiers holds the byte 0, so the imports that its form adds are of
/// packages that are led to; so in such a program a step over a constant that is declared as a name writes its file,
/// and settles it where no import that goes has the name of an identifier.
pub fn constants_settle()
    ensures names { ConstantUsesAreNames }
    ensures spelled { ConstantUsesAreSpelled }
    ensures led { ConstantsAddLed }
    ensures writes { ConstantsWrite }
    ensures settle { ConstantsSettle }
{
    well_typed_files_are_scoped();
}

/// A step that writes its file leaves such a program, where that is well typed; so steps over constants, and runs of
/// them, keep which marked functions lie on a cycle.
pub fn constants_keep_cycles()
    ensures ready { StepsStayReady }
    ensures step { ConstantsKeepCycles }
    ensures runs { ConstantRunsKeepCycles }
{
    well_typed_files_are_scoped();
}
