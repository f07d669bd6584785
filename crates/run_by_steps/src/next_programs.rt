//! Laws of the program after a step.

ghost use Rattle.run_by_steps.specs.NextPrograms.Laws.{MadeFilesAreNext, OneFileIsMade, StepTextsAreRead};
ghost use Rattle.run_by_steps.specs.NextPrograms.Laws.{ReachedStepsRun, StepsKeepWords, StepsReachOn};

/// Where the form of a step is laid out in the place of a node of its file, the new text of the file has tokens, which
/// spell a tree: that with the form in the use's place and the imports settled, spans aside. So reading it never fails.
pub fn step_texts_are_read()
    ensures { StepTextsAreRead }
{}

/// Whatever the new text of such a file is read as, the program with that file is the next one: with its text, its
/// tokens, its comments and its tree, and the row of the log. Of a next program they are those of its file.
pub fn read_files_are_next()
    ensures made { MadeFilesAreNext }
    ensures one { OneFileIsMade }
{}

/// Where the file of a step reads from its text and no word in it was unsupported, none is after the step: tokens that
/// spell a file have none, and no edit stands before the end of the package's name. So reading the new text never fails
/// for a word either.
pub fn steps_keep_words()
    ensures { StepsKeepWords }
{}

/// Steps within the limits and one more within them are steps within them; where no use is free any more, they are the
/// run. So a run is made step by step, each behind the others.
pub fn runs_are_made_by_steps()
    ensures on { StepsReachOn }
    ensures ends { ReachedStepsRun }
{}
