//! Laws of runs over constants in declarations of every form, from a module as it reads.

ghost use Rattle.constant_modules.specs.NamedAnywhere.MarkedLaws as law;

use crate::keyed_imports::keyed_marks_stay_named;
use crate::named_anywhere::taken::names_are_taken_anywhere;
use printed_constants::typed_parts::marked_runs::{
    added_imports_may_be_declared, constants_keep_cycles, constants_settle, read_marks_are_named,
    read_modules_are_ready,
};

/// A step that taken_names speaks of is such a step: its parts are simple. A step that takes its name and writes its
/// file, in a program that is ready and well typed, leaves such a program; and a run of such steps over constants from
/// a module that reads keeps typing, which marked functions lie on a cycle, and the meaning, and inlines the module.
pub fn runs_anywhere_keep()
    ensures simple { law.SimpleStepsTakeAnywhere }
    ensures step { law.StepsAnywhereStayReady }
    ensures runs { law.RunsAnywhereKeep }
    ensures modules { law.RunsAnywhereInline }
{
    read_modules_are_ready();
    constants_settle();
    constants_keep_cycles();
}

/// A step over a marked constant, in a declaration of any form, takes its name: with the imports of its form added, the
/// parts of the declaration are known. So a run over marked constants, from a module that reads and is well typed and
/// whose marks are all of constants, keeps typing, which marked functions lie on a cycle, and the meaning.
pub fn runs_over_marks_anywhere_keep()
    ensures takes_there { law.StepsOverMarksTakeThere }
    ensures takes { law.StepsOverMarksTake }
    ensures runs { law.RunsOverMarksAnywhereKeep }
{
    added_imports_may_be_declared();
    constants_settle();
    read_modules_are_ready();
    read_marks_are_named();
    keyed_marks_stay_named();
    names_are_taken_anywhere();
    runs_anywhere_keep();
}

/// Each step of such a run writes its file, so such a run inlines a module that reads: the new files read as a module,
/// which is well typed and means what the old one means, and keep their bytes outside the run's ranges.
pub fn runs_over_marks_anywhere_inline()
    ensures write { law.RunsOverMarksAnywhereWrite }
    ensures modules { law.RunsOverMarksAnywhereInline }
{
    added_imports_may_be_declared();
    constants_settle();
    keyed_marks_stay_named();
    read_marks_are_named();
    read_modules_are_ready();
    runs_anywhere_keep();
    runs_over_marks_anywhere_keep();
}
