//! The law of the imports that a step removes.

ghost use Rattle.printed_constants.specs.RemovedImports.Laws.{PrintedStepsRemoveNoLookUps};

/// In a program of constants, and of functions that print them, no import that a step over a constant removes has a
/// name that a declaration of the file as it is read again looks up: run_rules removes what was used before and isn't any
/// more, and a name behind a dot isn't looked up (Go specification, Import declarations; Selectors).
pub fn printed_steps_remove_no_look_ups()
    ensures { PrintedStepsRemoveNoLookUps }
{}
