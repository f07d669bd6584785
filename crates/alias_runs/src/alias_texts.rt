//! Laws of trees in which types are written otherwise.

ghost use Rattle.alias_runs.specs.AliasTexts.Laws.{RetypedBodiesStand, RetypedExpressionsStand};
ghost use Rattle.alias_runs.specs.AliasTexts.Laws.{RetypedHeadersStand, RetypedExpressionsMean};
ghost use Rattle.alias_runs.specs.AliasTexts.Laws.{RetypedBodiesMean, RetypedFunctionsMean};
ghost use Rattle.alias_runs.specs.AliasTexts.Laws.{CallsOnTypesStand, NewMeansTheSame, RetypedVariablesMean};

/// A tree with types written otherwise is one with parts replaced by parts with the same facts, so
/// it is typed alike.
pub fn retyped_trees_are_typed_alike()
    ensures expressions { RetypedExpressionsStand }
    ensures bodies { RetypedBodiesStand }
    ensures headers { RetypedHeadersStand }
{}

/// It has the same terms, and a declaration has the same code: the translation reads a type by what
/// it means.
pub fn retyped_trees_mean_the_same()
    ensures terms { RetypedExpressionsMean }
    ensures bodies { RetypedBodiesMean }
    ensures functions { RetypedFunctionsMean }
    ensures variables { RetypedVariablesMean }
{}

/// A call whose argument is a type is typed alike where that type is written otherwise, also with `*`
/// before it; where `new` is called, it has the same term.
pub fn calls_on_types_mean_the_same()
    ensures typed { CallsOnTypesStand }
    ensures terms { NewMeansTheSame }
{}
