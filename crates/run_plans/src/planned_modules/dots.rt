//! Variadic syntax in the files of a module.

ghost use Rattle.std.specs.Prelude.{◌≡◌};
ghost use Rattle.module_marks.specs.Views.{texts_of};
ghost use Rattle.run_plans.specs.PlannedModules.Modules.{without_dots as spec_without_dots};

use module_texts::ScannedFile;
use variadic_words::has_dots;

/// Whether no file has variadic syntax (Go specification, Function types; Passing arguments to ... parameters).
pub(crate) fn without_dots(files: &[ScannedFile]) -> bool
    ensures { result ≡ spec_without_dots (texts_of files.now) }
{
    for file in files {
        if has_dots(file.tokens.items()) {
            return false;
        }
    }
    true
}
