//! Laws of calls and literals in whole functions and packages.

ghost use Rattle.literals_in_place.specs.Further.{FactsReachedAlone, LiteralsHaveTheFactsBesideOthers};
ghost use Rattle.literals_in_place.specs.Further.{LiteralsMentionAlikeBesideOthers, MentionsReachedAlone};
ghost use Rattle.literals_in_place.specs.Further.{PackagesStayTypedBesideOthers, StepsShowTheSameBesideOthers};
ghost use Rattle.literals_in_place.specs.Further.{StepsStayWellTyped};
ghost use Rattle.literals_in_place.specs.Laws.{BodiesKeepTheirTermAfter, BodiesStayTypedAfter};
ghost use Rattle.literals_in_place.specs.Laws.{DeferredLiteralsStand, LiteralsHaveTheFactsOfCalls};
ghost use Rattle.literals_in_place.specs.Laws.{LiteralsMentionAlike, LiteralsStand};
ghost use Rattle.literals_in_place.specs.Laws.{ModulesShowTheSame, ModulesAreCovered};
ghost use Rattle.literals_in_place.specs.Steps.{DeferredLiteralsStandBesideOthers};
ghost use Rattle.literals_in_place.specs.Steps.{FunctionsKeepTheirCode, LiteralStepsShowTheSame};
ghost use Rattle.literals_in_place.specs.Steps.{LiteralStepsStandBeside, LiteralsStandBesideOthers};
ghost use Rattle.literals_in_place.specs.Steps.{PackagesKeepTheirCode, TermsReachedAlone, ZerosStayBesideOthers};

/// A call and its literal have the same facts to the rules of typing, so a tree in which the one stands for
/// the other is typed as it was; and they mention alike what is declared around. So the literal stands for
/// the call as an operand in the body of a function of higher rank, also in the file with the imports that
/// it adds; and the deferred literal for the deferred call.
pub fn literals_stand_for_calls()
    ensures facts { LiteralsHaveTheFactsOfCalls }
    ensures mentions { LiteralsMentionAlike }
    ensures operands { LiteralsStand }
    ensures deferred { DeferredLiteralsStand }
{}

/// In the file with the imports that the literal of a call adds, a body whose free names stand in the file is
/// typed as before, and has the same term.
pub fn bodies_stay_with_imports()
    ensures typed { BodiesStayTypedAfter }
    ensures terms { BodiesKeepTheirTermAfter }
{}

/// A module in whose functions parts stand for others, as literals do for calls, shows the same under free
/// prices, by the ranks of the marked functions that lie on no cycle; so each shows what the other does
/// within the budget (A + 1)(n + 1), where A is the number of marked functions.
pub fn modules_with_literals_show_the_same()
    ensures shows { ModulesShowTheSame }
    ensures covered { ModulesAreCovered }
{}

/// Beside further packages, in dependency order behind those of the module, a call and its literal still have
/// the same facts to the rules of typing: these need of a world what is reached alone.
pub fn facts_stay_beside_others()
    ensures reached { FactsReachedAlone }
    ensures literals { LiteralsHaveTheFactsBesideOthers }
{}

/// Packages in whose functions parts stand for others, as literals do for calls, stay well typed beside further
/// packages, where alone each body is typed as before and the imports are right: so after a step all further
/// packages that were well typed with the packages before are so with those after, and the step leaves packages
/// that show the same if its parts mean the same beside all of them.
pub fn packages_stay_typed_beside_others()
    ensures packages { PackagesStayTypedBesideOthers }
    ensures steps { StepsStayWellTyped }
    ensures shows { StepsShowTheSameBesideOthers }
{}

/// Beside further packages a call and its literal still mention alike what is declared around: what a body
/// mentions, so which variables live in cells, needs of a world what is reached alone.
pub fn mentions_stay_beside_others()
    ensures reached { MentionsReachedAlone }
    ensures literals { LiteralsMentionAlikeBesideOthers }
{}

/// The terms of expressions and statements need of a world what is reached alone, where packages that are reached
/// have the same import paths and types that are reached the same zero values, as those of well-typed packages
/// have beside further ones.
pub fn terms_need_what_they_reach()
    ensures reached { TermsReachedAlone }
    ensures zeros { ZerosStayBesideOthers }
{}

/// So packages keep their code beside all further packages with which they are well typed, and the whole program
/// has for each function of their paths the code that they alone have for it.
pub fn packages_keep_their_code_beside_others()
    ensures packages { PackagesKeepTheirCode }
    ensures functions { FunctionsKeepTheirCode }
{}

/// So beside all further packages a literal stands for its call as an operand, in every function, and for its
/// deferred call, in a function of higher rank; and packages in one of whose functions it stands in the call's place
/// stand for those before. Where each body is typed as
/// before, and the imports are right and of packages before, such a step leaves packages that show the same, as
/// runs of steps ask.
pub fn literal_steps_show_the_same()
    ensures operands { LiteralsStandBesideOthers }
    ensures deferred { DeferredLiteralsStandBesideOthers }
    ensures steps { LiteralStepsStandBeside }
    ensures shows { LiteralStepsShowTheSame }
{}
