//! Laws of translation.

ghost use Rattle.go_translation.specs.Laws.{DeferredVariablesAreHeld, FramesAreKept};
ghost use Rattle.go_translation.specs.Laws.{RankedByComputing};
ghost use Rattle.go_translation.specs.Laws.{DeferredParametersKeepTheirValue, LargerBudgetsCover};
ghost use Rattle.go_translation.specs.Laws.{FreePricesCover, FreePricesAreCovered};
ghost use Rattle.go_translation.specs.Laws.{EqualFreeShowsMeanTheSame, PackagesNeedNoSpans};
ghost use Rattle.go_translation.specs.Laws.{ShowsNeedNoSpans};
ghost use Rattle.go_translation.specs.Laws.{ExpressionsNeedNoSpans, StatementsNeedNoSpans};
ghost use Rattle.go_translation.specs.Laws.{MentionsNeedNoSpans, HeldAlike, ExpressionsAlike};
ghost use Rattle.go_translation.specs.Laws.{StatementsAlike, SwappedExpressions, SwappedStatements};
ghost use Rattle.go_translation.specs.Laws.{SwappedPrograms, SwappedRuns, SwappedMeaning, CodeIsScoped};
ghost use Rattle.go_translation.specs.Laws.{AddressesAreSingle, InitialIsScoped};
ghost use Rattle.go_translation.specs.Laws.{ReturnsGiveAllResults};
ghost use Rattle.go_translation.specs.Laws.{NothingMissingIsAskedFor, TypedPartsGiveTheirValues};

/// A part's term, and which variables it holds, depend on no span.
#[tactic(auto, using(crate::proofs::TranslationLaws::bare_laws))]
pub fn translation_needs_no_spans()
    ensures terms { ExpressionsNeedNoSpans }
    ensures bodies { StatementsNeedNoSpans }
    ensures mentioned { MentionsNeedNoSpans }
{}

/// What is translated at one place is translated alike at another at which its free names mean the
/// same and their variables are at the same locations; which variables are held depends on what
/// names mean alone.
#[tactic(auto, using(crate::proofs::TranslationLaws::alike_laws))]
pub fn translated_alike()
    ensures held { HeldAlike }
    ensures terms { ExpressionsAlike }
    ensures bodies { StatementsAlike }
{}

/// Parts that differ in names of equal constants alone have equal terms.
pub fn constants_may_be_swapped()
    ensures terms { SwappedExpressions }
    ensures bodies { SwappedStatements }
{}

/// Packages that declare the same and differ in names of equal constants alone are equal programs,
/// so they show the same, and keep their meaning among all further packages that stay typed.
pub fn swapped_packages_show_the_same()
    ensures programs { SwappedPrograms }
    ensures runs { SwappedRuns }
    ensures meaning { SwappedMeaning }
{}

/// A function's code names its parameters alone, and what sets package variables names no local,
/// whether the packages are typed or not; and where each free function calls free ones of lower rank
/// alone, by a computed test, the program is ranked: what the kernel's laws of calls ask.
pub fn code_is_scoped()
    ensures functions { CodeIsScoped }
    ensures initial { InitialIsScoped }
    ensures ranked { RankedByComputing }
{}

/// The terms of packages, well typed or not, ask for nothing that is missing: each function that is
/// called or deferred is declared with its code, and each package variable that is read or whose
/// address is taken is one that is set before `main` runs.
pub fn nothing_missing_is_asked_for()
    ensures declared { NothingMissingIsAskedFor }
{}

/// A variable that a deferred literal names from outside lives in a cell, or is a parameter to which
/// nothing is stored: so the literal may keep the frame as it stands, and the terms of packages do.
pub fn deferred_literals_may_keep_the_frame()
    ensures variables { DeferredVariablesAreHeld }
    ensures parameters { DeferredParametersKeepTheirValue }
    ensures frames { FramesAreKept }
{}

/// What packages show grows with the budget, and free prices change it within a stated budget. So
/// packages that show the same under free prices have the same meaning.
pub fn budgets_and_free_prices_of_packages()
    ensures larger { LargerBudgetsCover }
    ensures free { FreePricesCover }
    ensures paid { FreePricesAreCovered }
    ensures meaning { EqualFreeShowsMeanTheSame }
{}

/// Packages that are equal but for spans are equal programs, and show the same.
pub fn packages_need_no_spans()
    ensures programs { PackagesNeedNoSpans }
    ensures runs { ShowsNeedNoSpans }
{}

/// A typed value is one value: where a program has what names mean, and variables whose address is
/// taken live in cells, the term of what is typed gives as many values as it is. So it is never the
/// term that does nothing.
pub fn typed_values_are_single()
    ensures operands { TypedPartsGiveTheirValues }
    ensures addresses { AddressesAreSingle }
    ensures returns { ReturnsGiveAllResults }
{}
