//! Places outside all functions, with the imports that are named there (Go specification, Import
//! declarations; Blocks; Iota).

ghost use Rattle.std.specs.Prelude.{◌≡◌, [], ◌∷◌, IfOk, OnOk};
ghost use Rattle.initial_values.specs.ValuePlaces.Places.{AddsImports, AreNamed, AreSome, IsValuePlace, is_import};

use go_tree::{Name, NoMemory};
use std::alloc::{AllocError, Global};
use typed_names::{Block, Entity, Locals, Scope};

/// Whether a name may mean this in a file block: a package, or an import that is refused.
fn is_import(entity: Entity) -> bool
    ensures { result ≡ is_import entity }
{
    matches!(entity, Entity::Package(_) | Entity::Refused)
}

/// A copy of a name.
fn copy_of(alloc: Global, name: &[u8]) -> Result<Vec<u8>, NoMemory>
    ensures { IfOk result (λ copy. copy.items ≡ name.now) }
{
    Ok(name.to_vec(alloc)?)
}

/// Adds the import of a file that has this name, if there is one.
fn add_import(alloc: Global, imports: &mut Block, file: &Block, name: &[u8]) -> Result<(), NoMemory>
    requires { AreSome file.now imports.old }
    ensures { OnOk result (AddsImports file.now (name.now ∷ []) imports.old imports.new) }
{
    match file.find(name) {
        Some(entity) => {
            if !is_import(entity) {
                // A file block has nothing else.
                return Err(AllocError);
            }
            let copy = copy_of(alloc, name)?;
            imports.set(copy, entity)?;
            Ok(())
        }
        None => Ok(()),
    }
}

/// The imports of a file that have one of these names, or `_`.
fn imports_named(alloc: Global, file: &Block, names: &[Name]) -> Result<Block, NoMemory>
    ensures { IfOk result (AreNamed file.now names.now) }
{
    let mut imports = Block::new(alloc);
    add_import(alloc, &mut imports, file, b"_".as_slice())?;
    for name in names {
        add_import(alloc, &mut imports, file, name.items())?;
    }
    Ok(imports)
}

/// The place of a header of a file, outside all functions, with the imports of the file that have one of these
/// names, and the number of the header's constant spec, if it is one. The error is want of memory.
pub fn value_place(
    alloc: Global,
    file: &Scope,
    number: Option<usize>,
    names: &[Name],
) -> Result<Scope, NoMemory>
    ensures { IfOk result (IsValuePlace file.now number names.now) }
{
    let imports = imports_named(alloc, &file.imports, names)?;
    Ok(Scope {
        locals: Locals::new(alloc),
        imports,
        home: file.home,
        iota: number,
    })
}
