//! The constants of a file.

ghost use Rattle.std.specs.Prelude.{◌≡◌, ◌<◌, ◌^◌, true, false, All, OnOk, map};
ghost use Rattle.go_tree.specs.FileView.{decl_of};
ghost use Rattle.member_uses.specs.Views.{names_in};
ghost use Rattle.repeated_parts.specs.UseSearch.MarkValues.Tables.{IsPut};
ghost use Rattle.repeated_parts.specs.UseSearch.MarkValues.Values.{decl_values};
ghost use Rattle.programs.specs.FileValues.Filled.{IsFilled, is_constants};

use file_names::MarkRef;
use go_tree::{Decl, NoMemory};
use member_uses::FileScopes;
use repeated_parts::use_search::mark_values::ConstantValues;
use std::alloc::Global;

/// Whether it declares constants.
fn declares_constants(decl: &Decl) -> bool
    ensures { result ≡ is_constants (decl_of decl.now) }
{
    match decl {
        Decl::Const(_) => true,
        Decl::Var(_) | Decl::Types(_) | Decl::Func(_) => false,
    }
}

/// The same for one declaration, by the numbers of its file and itself.
fn fill_decl(
    alloc: Global,
    values: &mut ConstantValues,
    file: usize,
    names: &FileScopes,
    number: usize,
    decl: &Decl,
) -> Result<(), NoMemory>
    requires { All (λ k. k < 2 ^ 32) names.now.imports.now }
    ensures filled { OnOk result (is_constants (decl_of decl.now) ≡ true → IsPut (names.now.home, (file, number))
        (decl_values (λ s. s) (names_in names.now) (decl_of decl.now)) values.old values.new) }
    ensures left { OnOk result (is_constants (decl_of decl.now) ≡ false → values.new ≡ values.old) }
{
    if !declares_constants(decl) {
        return Ok(());
    }
    let mark = MarkRef {
        package: names.home,
        file,
        decl: number,
        item: 0,
    };
    values.set(alloc, mark, names, decl)
}

/// The table has what the constants of a file's declarations are declared as from now on, where these are the names
/// of the file; the file is the one with this number of the package of these names. What it has of other files stays.
/// The only error is `NoMemory`.
///
/// One look-up in the table of scopes for each constant of the file.
pub fn fill_file(
    alloc: Global,
    values: &mut ConstantValues,
    file: usize,
    names: &FileScopes,
    decls: &[Decl],
) -> Result<(), NoMemory>
    requires { All (λ k. k < 2 ^ 32) names.now.imports.now }
    ensures { OnOk result
        (IsFilled names.now.home file (names_in names.now) (map decl_of decls.now) values.old values.new) }
{
    for (number, decl) in decls.iter().enumerate() {
        fill_decl(alloc, values, file, names, number, decl)?;
    }
    Ok(())
}
