//! Laws of translation where the same is found.

ghost use Rattle.order_runs.specs.SameCodes.Laws.{ExpressionsSame, MentionsSame, OrdersMakeOneProgram};
ghost use Rattle.order_runs.specs.SameCodes.Laws.{OrdersAreTypedAlike, OrdersShowTheSame, PackagesSame, StatementsSame};

/// Translation reads a world by look-ups alone, and the import paths of packages by their numbers.
pub fn translation_finds_the_same()
    ensures mentions { MentionsSame }
    ensures terms { ExpressionsSame }
    ensures bodies { StatementsSame }
    ensures packages { PackagesSame }
{}

/// In whatever order packages stand, they are well typed alike; with distinct paths and numbers
/// they make one kernel program, set their variables alike, and show the same.
pub fn orders_make_one_program()
    ensures typed { OrdersAreTypedAlike }
    ensures programs { OrdersMakeOneProgram }
    ensures shows { OrdersShowTheSame }
{}
