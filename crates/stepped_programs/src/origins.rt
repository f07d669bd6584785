//! The origins of a declaration in the place of others.

ghost use Rattle.std.specs.Prelude.{◌≡◌, ◌<◌, Some, length, slice_get};
ghost use Rattle.programs.specs.declared.part_origins.origins.Origins as declared;
ghost use Rattle.stepped_programs.specs.SwappedOrigins.{IsDeclPut, IsFilePut, IsOriginPut};
ghost use Rattle.stepped_programs.specs.Steps.{HasDecl};

use crate::place::StepPlace;
use go_tree::Span;
use programs::{Origins, PackageOrigins};

/// The declaration with this number has these origins from now on.
fn put_decl(own: &mut Origins, decl: usize, spans: Vec<Span>)
    requires { decl < length own.old.decls.items }
    ensures { IsDeclPut decl spans.items own.old own.new }
{
    own.decls[decl] = spans;
}

/// So it is in the file with this number.
fn put_file(home: &mut PackageOrigins, file: usize, decl: usize, spans: Vec<Span>)
    requires there { file < length home.old.files.items }
    requires decl { (own : declared.Origins) → slice_get home.old.files.items file ≡ Some own
        → decl < length own.decls.items }
    ensures { IsFilePut file decl spans.items home.old home.new }
{
    put_decl(&mut home.files[file], decl, spans);
}

/// And in the package with this number.
pub(crate) fn put_origins(origins: &mut [PackageOrigins], at: StepPlace, spans: Vec<Span>)
    requires { HasDecl at origins.old }
    ensures { IsOriginPut at.home at.file at.decl spans.items origins.old origins.new }
{
    put_file(&mut origins[at.home], at.file, at.decl, spans);
}
