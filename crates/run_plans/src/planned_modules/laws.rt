//! Laws of plans.

ghost use Rattle.run_plans.specs.PlannedModules.Laws.{ListedFilesAreFolders, NeverBoth, PlansAreOne, PlansInlineModules};
ghost use Rattle.run_plans.specs.PlannedModules.Laws.{ReadFilesAreFolders, RefusalsAreAlike, RefusalsNameFiles};
ghost use Rattle.run_plans.specs.PlannedModules.Laws.{TakenModulesPassLimits};

use constant_modules::constant_programs::constant_programs_stay;
use module_refusals::{modules_have_no_refusal, one_refusal_at_most};
use run_rules::programs_have_one_run;
use variadic_words::files_without_dots_hand_on_no_slice;

/// The files that are read of a folder are a folder of their own (`read`), and so are those with the paths that are
/// selected of a list (`listed`): `plan_module` may be called for them (Go specification, Packages).
pub fn read_files_are_folders()
    ensures read { ReadFilesAreFolders }
    ensures listed { ListedFilesAreFolders }
{}

/// What is planned for a module inlines it (Go specification, Packages; Program initialization and execution).
pub fn plans_inline_modules()
    ensures { PlansInlineModules }
{
    constant_programs_stay();
    files_without_dots_hand_on_no_slice();
}

/// The files that are read of a folder have one plan at most, or else one refusal: its number, its file and its place.
pub fn one_answer_at_most()
    ensures plans { PlansAreOne }
    ensures refusals { RefusalsAreAlike }
    ensures either { NeverBoth }
{
    one_refusal_at_most();
    modules_have_no_refusal();
    programs_have_one_run();
}

/// A module that is taken is refused for no reason but a limit that its run passes; so where no step of the run passes
/// one, it is planned for, or memory is wanting.
pub fn taken_modules_pass_limits()
    ensures { TakenModulesPassLimits }
{
    modules_have_no_refusal();
}

/// The file that a refusal names, if it names one, is one of the files that are read, by the index at which it was
/// listed.
pub fn refusals_name_files()
    ensures { RefusalsNameFiles }
{}
