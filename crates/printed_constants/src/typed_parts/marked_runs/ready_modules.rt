//! The law of modules that read.

ghost use Rattle.printed_constants.specs.TypedParts.MarkedRuns.ReadyModules.Laws.{ReadModulesAreReady, ReadModulesAreTyped};

use order_runs::cycle_runs::read_modules_are_ordered;

/// A module that reads is ready, as settled_constants asks it of a program (`IsReady`), where the paths of its files
/// are octets, its packages are well typed, and no call hands on a slice for its last arguments. Its packages stay well
/// typed with the places of a run.
pub fn read_modules_are_ready()
    ensures ready { ReadModulesAreReady }
    ensures typed { ReadModulesAreTyped }
{
    read_modules_are_ordered();
}
