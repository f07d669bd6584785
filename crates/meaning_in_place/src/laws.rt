//! Laws of meaning in place.

ghost use Rattle.meaning_in_place.specs.Laws.{FunctionsStand, OperandsStand, PackagesDeclareTheSame};
ghost use Rattle.meaning_in_place.specs.Laws.{PackagesShowTheSame, PackagesStayTyped, RanksOfAllFunctions};
ghost use Rattle.meaning_in_place.specs.Laws.{RunsMeanTheSame, StatementsMentionAlike, StatementsStand};
ghost use Rattle.meaning_in_place.specs.Laws.{StepsShowTheSame};

/// Statements in which a part stands for another, in a header, a block or behind declarations, mention the
/// names around alike, so that the same variables live in cells; and their term is that of those before,
/// but for parts that mean the same. So does an expression of which one operand stands for another.
pub fn statements_stand()
    ensures mentions { StatementsMentionAlike }
    ensures terms { StatementsStand }
    ensures operands { OperandsStand }
{}

/// So the code of a function with such a body is the function's, but for parts that mean the same.
pub fn functions_stand()
    ensures { FunctionsStand }
{}

/// Packages with such functions show the same under free prices, where each function calls free ones of
/// lower rank alone, as in a program that is ranked by its free functions; they declare the same, and
/// stay well typed where each body is typed as before and the imports are right.
pub fn packages_show_the_same()
    ensures packages { PackagesShowTheSame }
    ensures declared { PackagesDeclareTheSame }
    ensures typed { PackagesStayTyped }
    ensures ranks { RanksOfAllFunctions }
    ensures steps { StepsShowTheSame }
{}

/// So the packages after a run of steps mean what the first do, each within the budget (A + 1)(n + 1) of the
/// other, where A is the number of marked functions, however many steps there are.
pub fn runs_mean_the_same()
    ensures { RunsMeanTheSame }
{}
