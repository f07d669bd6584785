//! The constants of packages.

ghost use Rattle.std.specs.Prelude.{◌≡◌, ◌<◌, ◌^◌, ◌&&◌, ℕ, false, nat_eq, IfOk, OnOk, Some};
ghost use Rattle.std.specs.Prelude.{length, slice_get};
ghost use Rattle.pkg_graph.specs.Views.{package_view};
ghost use Rattle.pkg_graph.specs.declared.packages.Package as code;
ghost use Rattle.pkg_graph.specs.declared.packages.SourceTree as code_tree;
ghost use Rattle.file_names.specs.Imports.{FindsPackages};
ghost use Rattle.file_names.specs.Members.{IsBlockOf};
ghost use Rattle.file_tables.specs.Blocks.{HasOwnTable};
ghost use Rattle.repeated_parts.specs.UseSearch.MarkValues.Tables.{DeclKey, values_at};
ghost use Rattle.programs.specs.FileValues.Filled.{HasFileValues};

use crate::file_values::files::fill_file;
use file_names::{Places, block_members, member_names};
use file_tables::{Block, file_tables};
use go_tree::NoMemory;
use member_uses::FileScopes;
use pkg_graph::{Package, SourceTree};
use repeated_parts::use_search::mark_values::ConstantValues;
use std::alloc::Global;

/// The table has what the constants of the file with this number are declared as from now on, of the package with
/// this number, whose block this is; what it has of other files stays. The block is handed back. An error where memory
/// is refused, or where the file has 2^32 imports.
///
/// One step for each declaration and import of the file, and one look-up for each constant.
pub fn fill_source(
    alloc: Global,
    packages: &[Package],
    places: &Places,
    number: usize,
    file: usize,
    source: &SourceTree,
    block: Block,
    values: &mut ConstantValues,
) -> Result<Block, NoMemory>
    requires places { FindsPackages places.now packages.now }
    requires few { length packages.now < 2 ^ 32 }
    requires table { HasOwnTable block }
    ensures block { IfOk result (λ b. b ≡ block) }
    ensures here { OnOk result ((home : code.Package) → IsBlockOf block.names (package_view home)
        → HasFileValues packages.now number home file source.now values.new) }
    ensures others { OnOk result ((q : DeclKey) → (nat_eq number q.0 && nat_eq file q.1.0) ≡ false
        → values_at q values.new ≡ values_at q values.old) }
{
    let tables = file_tables(alloc, packages, places, block, &source.tree)?;
    let names = FileScopes {
        scopes: &tables.scopes,
        home: number,
        imports: &tables.imports,
    };
    fill_file(alloc, values, file, &names, source.tree.decls.items())?;
    Ok(Block::in_tables(tables))
}

/// The table has what the constants of the package with this number are declared as from now on.
fn fill_package(
    alloc: Global,
    packages: &[Package],
    places: &Places,
    number: usize,
    home: &Package,
    values: &mut ConstantValues,
) -> Result<(), NoMemory>
    requires places { FindsPackages places.now packages.now }
    requires few { length packages.now < 2 ^ 32 }
    ensures here { OnOk result ((i : ℕ) (source : code_tree.SourceTree) → slice_get home.now.files i ≡ Some source
        → HasFileValues packages.now number home.now i source values.new) }
    ensures others { OnOk result ((q : DeclKey) → nat_eq number q.0 ≡ false
        → values_at q values.new ≡ values_at q values.old) }
{
    let members = block_members(alloc, number, home)?;
    let mut block = Block::of(alloc, member_names(alloc, &members)?)?;
    for (file, source) in home.files.items().iter().enumerate() {
        block = fill_source(alloc, packages, places, number, file, source, block, values)?;
    }
    Ok(())
}

/// What the constants of the packages are declared as, whether marked or not, where `places` says where each package
/// stands by its path (Go specification, Constant declarations). An error where memory is refused, or where a package
/// or a file has 2^32 names.
///
/// One step for each declaration, import and name of a package block, and one look-up for each constant.
pub fn program_values(
    alloc: Global,
    packages: &[Package],
    places: &Places,
) -> Result<ConstantValues, NoMemory>
    requires places { FindsPackages places.now packages.now }
    requires few { length packages.now < 2 ^ 32 }
    ensures { IfOk result (λ t. (k i : ℕ) (home : code.Package) (source : code_tree.SourceTree)
        → slice_get packages.now k ≡ Some home → slice_get home.files i ≡ Some source
        → HasFileValues packages.now k home i source t) }
{
    let mut values = ConstantValues::new(alloc);
    for (number, home) in packages.iter().enumerate() {
        fill_package(alloc, packages, places, number, home, &mut values)?;
    }
    Ok(values)
}
