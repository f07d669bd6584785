//! Where marked declarations stand.

ghost use Rattle.std.specs.Prelude.{◌≡◌, option_copied};
ghost use Rattle.module_marks.specs.Views.{mark_ref_of};
ghost use Rattle.repeated_parts.specs.UseSearch.MarkValues.Tables.{key_of, file_at, tree_at, decl_at};

use file_names::MarkRef;
use go_tree::Decl;
use member_uses::FileScopes;
use pkg_graph::{Package, SourceTree};

/// What each name of each file of a package means, by the numbers of the files.
#[derive(Clone, Copy)]
pub struct PackageScopes<'s> {
    pub files: &'s [FileScopes<'s>],
}

/// The names of the file in which a marked declaration stands.
pub(crate) fn marked_scopes<'s>(
    scopes: &[PackageScopes<'s>],
    mark: MarkRef,
) -> Option<&'s FileScopes<'s>>
    ensures { option_copied result ≡ file_at scopes.now (key_of (mark_ref_of mark)) }
{
    match scopes.get(mark.package) {
        None => None,
        Some(package) => package.files.get(mark.file),
    }
}

/// The file in which a marked declaration stands.
fn marked_file<'a>(packages: &'a [Package], mark: MarkRef) -> Option<&'a SourceTree>
    ensures { option_copied result ≡ tree_at packages.now (key_of (mark_ref_of mark)) }
{
    match packages.get(mark.package) {
        None => None,
        Some(package) => package.files.items().get(mark.file),
    }
}

/// The marked declaration.
pub(crate) fn marked_decl<'a>(packages: &'a [Package], mark: MarkRef) -> Option<&'a Decl>
    ensures { option_copied result ≡ decl_at packages.now (key_of (mark_ref_of mark)) }
{
    match marked_file(packages, mark) {
        None => None,
        Some(source) => source.tree.decls.items().get(mark.decl),
    }
}
