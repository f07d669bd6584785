//! Laws of walks that find the names that are used.

ghost use Rattle.used_names.specs.Laws.{WalksFindUsed, WalksFindUsedInAll, WalksFindUsedInBodies};

/// A walk finds the names that an expression, a list of expressions or the statements of a block use and
/// that nothing around declares, whatever is known of the names around but which of them mean types or
/// packages: no local name does (Go specification, Declarations and scope; Composite literals).
pub fn walks_find_used_names()
    ensures expressions { WalksFindUsed }
    ensures lists { WalksFindUsedInAll }
    ensures bodies { WalksFindUsedInBodies }
{}
