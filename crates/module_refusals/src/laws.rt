//! Laws of refusals.

ghost use Rattle.module_refusals.specs.Laws.{ModulesHaveNoRefusal, RefusalsAreAlike};

use pkg_graph::one_fault_at_most;

/// Files that are a module have no refusal.
pub fn modules_have_no_refusal()
    ensures { ModulesHaveNoRefusal }
{
    one_fault_at_most();
}

/// Files have one refusal at most: its number, its file and its place.
pub fn one_refusal_at_most()
    ensures { RefusalsAreAlike }
{
    one_fault_at_most();
}
