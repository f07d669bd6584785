//! Laws of the dependency order of a program's packages, as read and after steps.

ghost use Rattle.order_runs.specs.CycleRuns.OrderedSteps.Laws.{OrdersAreRanked, RankedAreOrdered};
ghost use Rattle.order_runs.specs.CycleRuns.OrderedSteps.Laws.{ReadModulesAreOrdered};
ghost use Rattle.order_runs.specs.CycleRuns.OrderedSteps.Laws.{ReadModulesHaveOwnPaths, StepsKeepOrders};
ghost use Rattle.order_runs.specs.CycleRuns.OrderedSteps.Laws.{StepsKeepPaths};

use pkg_graph::one_order_at_most;

/// Each package stands in the dependency order exactly where packages can be ranked so that each import
/// names a package of lesser rank.
pub fn orders_are_ranked()
    ensures ranked { OrdersAreRanked }
    ensures ordered { RankedAreOrdered }
{}

/// In a module that reads each package stands in the dependency order, under a path of its own.
pub fn read_modules_are_ordered()
    ensures ordered { ReadModulesAreOrdered }
    ensures paths { ReadModulesHaveOwnPaths }
{
    one_order_at_most();
}

/// A step after which a file imports what it imported, or what its package was led to already, keeps
/// that each package stands in the dependency order: with its imports added, and once they are settled.
pub fn steps_keep_orders()
    ensures ordered { StepsKeepOrders }
    ensures paths { StepsKeepPaths }
{}
