//! Laws of modules.

ghost use Rattle.pkg_graph.specs.GraphLaws.{FaultsAreUnique, LinkedHaveNoFault, OrdersAreUnique, OrdersHoldPackages};
ghost use Rattle.pkg_graph.specs.GraphLaws.{OrdersHoldAll, AllHaveNoCycle, ProgramsAreUnique};

/// Files have one fault at most, and none where they link.
pub fn one_fault_at_most()
    ensures unique { FaultsAreUnique }
    ensures none { LinkedHaveNoFault }
{}

/// There is one order of packages. It holds all of them exactly where none lies on a cycle of imports.
pub fn one_order_at_most()
    ensures unique { OrdersAreUnique }
    ensures numbers { OrdersHoldPackages }
    ensures all { OrdersHoldAll }
    ensures no_cycle { AllHaveNoCycle }
{}

/// Files with their trees are one program at most.
#[tactic(auto, using(crate::proofs::FaultsUnique::programs_are_unique))]
pub fn one_program_at_most()
    ensures unique { ProgramsAreUnique }
{}
