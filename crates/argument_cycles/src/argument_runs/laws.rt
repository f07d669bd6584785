//! The law of runs over calls.

ghost use Rattle.argument_cycles.specs.ArgumentRuns.Laws as law;

use order_runs::cycle_runs::packages_stay_linked;

/// Each run of steps over calls that put expressions, blocks, tails or literals with arguments in the places of
/// parameters, with imports or without, and of the steps of literal_cycles, keeps which marked functions lie on
/// a cycle, from files that read as a module, where each step settles its file.
pub fn argument_runs_keep_cycles()
    ensures { law.CallRunsKeepCycles }
{
    packages_stay_linked();
}
