//! Laws of budgets: how what a run shows depends on its budget and on prices.

ghost use Rattle.go_kernel.specs.Laws.{EqualFreeShowsCover, FreePricesAreCovered, FreePricesCover, LargerBudgetsCover};

/// What a run shows at a budget is covered by what it shows at each larger one:
/// an end or a panic stays, and a run that was cut goes on from the same events.
pub fn larger_budgets_cover()
    ensures { LargerBudgetsCover }
{}

/// What a run shows is covered by what it shows at the same budget where direct calls of free functions cost nothing.
pub fn free_prices_cover()
    ensures { FreePricesCover }
{}

/// What a run shows at budget n where chains of at most A free calls cost nothing is covered by what it shows at budget
/// (A + 1)(n + 1).
pub fn free_prices_are_covered()
    ensures { FreePricesAreCovered }
{}

/// Two programs that show the same under free prices show the same but for budgets:
/// what one shows at budget n is covered by what the other shows at (A + 1)(n + 1).
pub fn equal_free_shows_cover()
    ensures { EqualFreeShowsCover }
{}
