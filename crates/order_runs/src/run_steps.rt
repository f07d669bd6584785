//! Laws of steps and runs over constants.

ghost use Rattle.order_runs.specs.RunSteps.Laws.{CodesWithoutSpans, MeantWithoutSpans, TypedWithoutSpans};
ghost use Rattle.order_runs.specs.RunSteps.Laws.{PlainNextsKeepTheCode, PlainNextsMeanTheSame};
ghost use Rattle.order_runs.specs.RunSteps.Laws.{PlainRunsMeanTheSame, RunPackagesAreLinked};
ghost use Rattle.order_runs.specs.RunSteps.Laws.{SameCodeMeansTheSame, UsesStandAlone};

/// Packages that are equal but for spans are well typed alike, beside all further packages, and
/// make the same kernel program; so they mean the same.
pub fn packages_need_no_spans()
    ensures typed { TypedWithoutSpans }
    ensures codes { CodesWithoutSpans }
    ensures meaning { MeantWithoutSpans }
{}

/// A step of a run over a plain use of a constant, whose file keeps its imports, leaves a program
/// that means what the one before does: its file is read again, and is the one with the form in the
/// use's place, spans aside. So does each run of such steps.
pub fn plain_runs_mean_the_same()
    ensures code { SameCodeMeansTheSame }
    ensures linked { RunPackagesAreLinked }
    ensures alone { UsesStandAlone }
    ensures steps { PlainNextsKeepTheCode }
    ensures meaning { PlainNextsMeanTheSame }
    ensures runs { PlainRunsMeanTheSame }
{}
