//! The marks of a module whose marks are all of constants.

ghost use Rattle.std.specs.Prelude.{◌≡◌, All, IfOk, IfSome, is_some, map};
ghost use Rattle.pkg_graph.specs.Views.{package_view};
ghost use Rattle.run_rules.specs.Marks.{bad_of, marks_of};
ghost use Rattle.module_texts.specs.Files.{IsScanned};
ghost use Rattle.module_marks.specs.Views.{bad_at_of, mark_ref_of, texts_of};
ghost use Rattle.stepped_programs.specs.LoadedPrograms.Loaded.{marks_constants};

use go_tree::NoMemory;
use module_marks::{ModuleMarks, find_marks};
use module_texts::ScannedFile;
use narrowed_marks::{are_of_constants, narrowed};
use pkg_graph::Package;
use std::alloc::Global;

/// The marks of declarations whose full names begin with `only`, and those that mean nothing; nothing where some mark
/// of the module isn't one of a constant. The only error is `NoMemory`.
pub(crate) fn constant_marks(
    alloc: Global,
    packages: &[Package],
    files: &[ScannedFile],
    only: &[u8],
) -> Result<Option<ModuleMarks>, NoMemory>
    requires { All IsScanned files.now }
    ensures constants { IfOk result (λ r. is_some r
        ≡ marks_constants (map package_view packages.now) (texts_of files.now)) }
    ensures good { IfOk result (λ r. IfSome r (λ m. map mark_ref_of m.good.items
        ≡ marks_of (map package_view packages.now) (texts_of files.now) only.now)) }
    ensures bad { IfOk result (λ r. IfSome r (λ m. map bad_at_of m.bad.items
        ≡ bad_of (map package_view packages.now) (texts_of files.now) (map package_view packages.now))) }
{
    let found = find_marks(alloc, packages, files)?;
    if !are_of_constants(packages, &found.good) {
        return Ok(None);
    }
    let ModuleMarks { good, bad } = found;
    let good = narrowed(alloc, packages, &good, only)?;
    Ok(Some(ModuleMarks { good, bad }))
}
