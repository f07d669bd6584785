//! Laws of what is refused first.

ghost use Rattle.header_order.specs.FirstRefusals.Laws.{BodiesComeAfter, NoneIsRefused, WellTypedByParts};

/// No import and no header is refused exactly where all are right; a program is well typed exactly where,
/// besides, no body is refused and each package `main` has its function.
pub fn none_is_refused()
    ensures declarations { NoneIsRefused }
    ensures bodies { WellTypedByParts }
{}

/// What go_types names of a program is the first body that is refused, or lack of `main`, of the packages before
/// that of the first import or header that is refused, or else this.
pub fn bodies_come_after()
    ensures { BodiesComeAfter }
{}
