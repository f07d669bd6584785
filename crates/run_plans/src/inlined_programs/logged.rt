//! The step over a use, as it is logged.

ghost use Rattle.std.specs.Prelude.{◌≡◌, IfOk, Some, map, option_copied};
ghost use Rattle.go_tree.specs.FileView.{decl_of};
ghost use Rattle.programs.specs.OriginsOfUses.Origins.{AreOriginsOf, decls_origin};
ghost use Rattle.programs.specs.PartOrigins.Views.{origins_of};
ghost use Rattle.stepped_programs.specs.RunReports.Kept.{MayBeTold, origins_at, source_at};
ghost use Rattle.run_plans.specs.InlinedPrograms.Steps.{IsLogOf};

use go_tree::{NoMemory, Span};
use pkg_graph::SourceTree;
use programs::{Origins, Program, use_origins};
use std::alloc::{AllocError, Global};
use stepped_programs::FirstUse;
use stepped_programs::run_reports::LoggedStep;

/// The file with these numbers of its package and its own.
fn source_at(program: &Program, home: usize, file: usize) -> Option<&SourceTree>
    ensures { option_copied result ≡ source_at program.now home file }
{
    match program.packages.get(home) {
        None => None,
        Some(found) => found.files.items().get(file),
    }
}

/// Where its parts come from.
fn origins_at(program: &Program, home: usize, file: usize) -> Option<&Origins>
    ensures { option_copied result ≡ origins_at program.now home file }
{
    match program.origins.get(home) {
        None => None,
        Some(kept) => kept.files.get(file),
    }
}

/// Where the name comes from that stands there in a file whose parts come from there. An error where memory is refused,
/// or where no name stands there.
fn name_origin(
    alloc: Global,
    source: &SourceTree,
    origins: &Origins,
    name: Span,
) -> Result<Span, NoMemory>
    requires { AreOriginsOf (map decl_of source.now.tree.decls) (origins_of origins.now) }
    ensures { IfOk result (λ origin. decls_origin name (map decl_of source.now.tree.decls)
        (origins_of origins.now) ≡ Some origin) }
{
    let table = use_origins(alloc, source.tree.decls.items(), &origins.decls)?;
    match table.find(name) {
        Some(origin) => Ok(origin),
        None => Err(AllocError),
    }
}

/// The step over the use that is found in the program, as it is logged. An error where memory is refused, or where it
/// isn't known where the use comes from. Linear in the declarations of its file.
pub(crate) fn logged_step(
    alloc: Global,
    program: &Program,
    first: &FirstUse,
) -> Result<LoggedStep, NoMemory>
    requires { MayBeTold program.now }
    ensures { IfOk result (IsLogOf program.now first.now) }
{
    let file = first.found.file;
    let found = &first.found.found;
    let Some(source) = source_at(program, first.home, file) else {
        return Err(AllocError);
    };
    let Some(origins) = origins_at(program, first.home, file) else {
        return Err(AllocError);
    };
    let origin = name_origin(alloc, source, origins, found.form.span)?;
    Ok(LoggedStep {
        package: first.home,
        file,
        offset: origin.start,
        mark: found.use_.mark,
    })
}
