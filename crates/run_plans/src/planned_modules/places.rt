//! Whether a module is well typed, or the place of its first fault, as it is told.

ghost use Rattle.std.specs.Prelude.{◌≡◌, ◌<◌, ◌≤◌, ◌^◌, All, IfOk, IfSome, Some, length, map};
ghost use Rattle.std.specs.Prelude.{slice_get};
ghost use Rattle.std.specs.Option.{option_map};
ghost use Rattle.go_tree.specs.declared.spans.Span.{Span};
ghost use Rattle.go_tree.specs.GoTypes.Answers.{given};
ghost use Rattle.go_tree.specs.GoTypes.WellTyped.{NotTyped};
ghost use Rattle.checked_modules.specs.Declarations.{refusal_of};
ghost use Rattle.module_texts.specs.Modules.{IsReadFrom};
ghost use Rattle.pkg_graph.specs.Views.{package_view};
ghost use Rattle.read_modules.specs.Modules.{packages_in};
ghost use Rattle.run_plans.specs.PlannedModules.Places.{IsTypingOf, TellsPlace};

use crate::planned_files::read_file;
use checked_modules::{
    RefusedPlace, read_bodies_are_walked, read_values_are_spelled, refused_place,
};
use go_tree::{MAX_FILE_BYTES, NoMemory};
use module_refusals::at_byte;
use module_texts::ReadModule;
use pkg_graph::Package;
use read_modules::modules_may_be_loaded;
use refusals::{Detail, Refusal};
use source_files::SourceFile;
use std::alloc::{AllocError, Global};

/// The path of the file with these numbers of its package and its own.
fn path_at(packages: &[Package], home: u32, file: usize) -> Option<&[u8]>
    ensures { option_map (λ p. p.now) result
        ≡ given (slice_get packages.now home) (λ p. given (slice_get p.files file) (λ s. Some s.path)) }
{
    match packages.get(home as usize) {
        None => None,
        Some(package) => match package.files.items().get(file) {
            None => None,
            Some(source) => Some(source.path.items()),
        },
    }
}

/// How the place is told that is refused first of these packages, which were read from these files: by the index at
/// which its file was listed, the line and the column. None where no such file was read, which never comes.
fn tell_place(files: &[SourceFile], packages: &[Package], refused: RefusedPlace) -> Option<Refusal>
    requires { All (λ f. length f.bytes ≤ MAX_FILE_BYTES) files.now }
    ensures { IfSome result (λ r. (place : NotTyped Span) → refusal_of (Some refused) ≡ Some place
        → TellsPlace files.now (map package_view packages.now) place r) }
{
    let Some(path) = path_at(packages, refused.package, refused.file) else {
        return None;
    };
    let Some(file) = read_file(files, path) else {
        return None;
    };
    Some(at_byte(file, refused.at.start, Detail::NotTyped))
}

/// How the place is told that is refused first of a module that was read from these files; None where it is well typed.
/// An error where memory is refused; also where no file with the path of the place was read, which never comes.
pub(crate) fn typing_fault(
    alloc: Global,
    files: &[SourceFile],
    read: &ReadModule,
) -> Result<Option<Refusal>, NoMemory>
    requires count { length files.now < 2 ^ 32 }
    requires small { All (λ f. length f.bytes ≤ MAX_FILE_BYTES) files.now }
    requires read { IsReadFrom files.now read.now }
    ensures { IfOk result (IsTypingOf files.now (packages_in read.now)) }
{
    modules_may_be_loaded();
    read_values_are_spelled();
    read_bodies_are_walked();
    let packages = read.graph.packages();
    let refused = refused_place(alloc, packages, read.graph.order())?;
    let Some(place) = refused else {
        return Ok(None);
    };
    match tell_place(files, packages, place) {
        Some(refusal) => Ok(Some(refusal)),
        None => Err(AllocError),
    }
}
