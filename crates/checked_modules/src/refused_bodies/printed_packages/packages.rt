//! Packages and their files.

ghost use Rattle.std.specs.Prelude.{◌≡◌, map};
ghost use Rattle.pkg_graph.specs.Views.{package_view};
ghost use Rattle.checked_modules.specs.RefusedBodies.PrintedPackages.Packages.{files_print_only, print_only};

use pkg_graph::Package;
use printing_files::prints_only;

/// Whether each file of the package prints only.
fn files_print_only(home: &Package) -> bool
    ensures { result ≡ files_print_only (package_view home.now) }
{
    for file in home.files.items() {
        if !prints_only(&file.tree) {
            return false;
        }
    }
    true
}

/// Whether each file of the packages holds besides imports only constants without a type, each of one name other than
/// `_` with an operand, and functions without receiver, parameters and results that print operands (Go specification,
/// Packages; Constant declarations; Function declarations): see `prints_only`. Linear in the files.
pub fn print_only(packages: &[Package]) -> bool
    ensures { result ≡ print_only (map package_view packages.now) }
{
    for package in packages {
        if !files_print_only(package) {
            return false;
        }
    }
    true
}
