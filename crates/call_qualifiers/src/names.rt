//! The names of a declaration before which the names of packages stand at a use.

ghost use Rattle.std.specs.Prelude.{◌≡◌, ℕ, List, IfOk, None, OnOk, map};
ghost use Rattle.go_tree.specs.FileView.{decl_of};
ghost use Rattle.go_tree.specs.File as file;
ghost use Rattle.go_tree.specs.declared.spans.Span as spans;
ghost use Rattle.pkg_graph.specs.Package.{Package};
ghost use Rattle.run_rules.specs.Naming.{Names};
ghost use Rattle.run_rules.specs.Programs.{decl_seen};
ghost use Rattle.run_rules.specs.Respanned.{decl_with};
ghost use Rattle.run_rules.specs.Run.{here_of};
ghost use Rattle.run_rules.specs.Sites.{Where};
ghost use Rattle.run_rules.specs.Steps.{At};
ghost use Rattle.call_forms.specs.Qualifiers.{at_span, qualifier_at};
ghost use Rattle.call_forms.specs.ToldNames.{AllTold};
ghost use Rattle.call_qualifiers.specs.Numbers.{is_written, number_put, numbers_put, there_of};
ghost use Rattle.call_qualifiers.specs.Told.{IsToldOf};

use call_forms::Qualifiers;
use go_tree::{Decl, Name, NoMemory};
use member_uses::possible_uses::decl_parts;
use repeated_parts::literal_types::TypeScopes;
use repeated_parts::{FlaggedUse, repeated_parts, repeated_uses};
use std::alloc::Global;

/// Whether the name of the package with this number stands before that of a member of it, where a declaration of the
/// package `home` is written in the package `there`.
fn is_written(home: usize, there: usize, number: usize) -> bool
    ensures { result ≡ is_written home there number }
{
    !(number == home && home == there)
}

/// The name of the member's package stands before it from now on, where it is written there.
fn put_use(
    home: usize,
    there: usize,
    use_: &FlaggedUse,
    qualifiers: &mut Qualifiers,
) -> Result<(), NoMemory>
    ensures packages { OnOk result (qualifiers.new.packages ≡ qualifiers.old.packages) }
    ensures before { OnOk result ((q : spans.Span) → at_span q qualifiers.new.before
        ≡ number_put home there (there_of use_.now) q (at_span q qualifiers.old.before)) }
{
    if is_written(home, there, use_.of.package) {
        qualifiers.put(use_.of.span, use_.of.package)?;
    }
    Ok(())
}

/// So do those of the members' packages, one after another.
fn put_uses(
    home: usize,
    there: usize,
    uses: &[FlaggedUse],
    qualifiers: &mut Qualifiers,
) -> Result<(), NoMemory>
    ensures packages { OnOk result (qualifiers.new.packages ≡ qualifiers.old.packages) }
    ensures before { OnOk result ((q : spans.Span) → at_span q qualifiers.new.before
        ≡ numbers_put home there (map there_of uses.now) q (at_span q qualifiers.old.before)) }
{
    for use_ in uses {
        put_use(home, there, use_, qualifiers)?;
    }
    Ok(())
}

/// The names of packages before the names of a declaration, where it is written in the package `there`, in which
/// packages have these names by their numbers: before a member of the declaration's own package, where that is another
/// one, and before what an import of its file names (Go specification, Qualified identifiers). Nothing stands before
/// names that are declared in the declaration, predeclared names, fields and keys that name fields. An error where
/// memory is refused.
///
/// Linear in the declaration, with three look-ups for each part that may be a use, and one for each literal.
pub fn decl_qualifiers(
    alloc: Global,
    scopes: &TypeScopes,
    decl: &Decl,
    there: usize,
    packages: Vec<Name>,
) -> Result<Qualifiers, NoMemory>
    ensures packages { IfOk result (λ told. told.packages ≡ packages.items) }
    ensures told { IfOk result (λ told. (ps : List (Package At)) (w : Where At) (names : Names) (i : ℕ)
        (d : file.Decl At) → IsToldOf ps w names scopes.now packages.items i d
        → decl_of decl.now ≡ decl_with here_of d
        → AllTold here_of (qualifier_at told) ps w there names (decl_seen ps w.number w.of w.source.tree d)) }
{
    let parts = decl_parts(alloc, decl)?;
    let flags = repeated_parts(alloc, scopes, decl)?;
    let uses = repeated_uses(alloc, &scopes.file, &parts, &flags)?;
    let mut told = Qualifiers::new(alloc, packages);
    put_uses(scopes.file.home, there, &uses, &mut told)?;
    Ok(told)
}
