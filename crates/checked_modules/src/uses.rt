//! The names that the declarations of each file use.

ghost use Rattle.std.specs.Prelude.{◌≡◌, [], map, IfOk};
ghost use Rattle.go_tree.specs.FileView.{decl_of};
ghost use Rattle.typed_names.specs.Known.{KnowsTypes};
ghost use Rattle.typed_names.specs.Scopes.{env_at};
ghost use Rattle.declared_types.specs.Steps.{KnowsPlaces};
ghost use Rattle.operand_modes.specs.CheckerTables.Ready.{AreReady};
ghost use Rattle.used_names.specs.Uses.{start};
ghost use Rattle.name_uses.specs.Walk.{places_at};
ghost use Rattle.name_uses.specs.HeaderUses.Headers.{after_decls};
ghost use Rattle.checked_modules.specs.Uses.{FindsUses, FindsUsesOfAll, SameWorlds};

use crate::file_places::{FilePlace, place_of};
use go_tree::{Decl, NoMemory};
use name_uses::{NameUses, decls_uses, places_know_final_types, walks_find_uses_of_headers};
use name_walks::NameSet;
use operand_modes::checker_tables::Tables;
use std::alloc::Global;
use typed_names::{Blocks, Scope};

/// The tables, which only grow, and the names that the declarations of a file use.
#[derive(Drop)]
struct FileUses {
    tables: Tables,
    found: NameSet,
}

/// The names that declarations use at a place outside all functions.
fn uses_there(
    alloc: Global,
    tables: Tables,
    blocks: &Blocks,
    places: &[Scope],
    place: &Scope,
    decls: &[Decl],
) -> Result<FileUses, NoMemory>
    requires ready { AreReady tables }
    requires known { KnowsTypes tables.env blocks.now place.now }
    requires places { KnowsPlaces tables.env blocks.now places.now }
    ensures ready { IfOk result (λ uses. AreReady uses.tables) }
    ensures known { IfOk result (λ uses. KnowsPlaces uses.tables.env blocks.now places.now) }
    ensures same { IfOk result (λ uses.
        places_at uses.tables.env blocks.now places.now ≡ places_at tables.env blocks.now places.now) }
    ensures found { IfOk result (λ uses. uses.found
        ≡ (after_decls (map decl_of decls.now) (start (env_at tables.env [] blocks.now place.now))).found) }
{
    let mut uses = NameUses::new(alloc, tables, blocks, places, place);
    let walked = decls_uses(alloc, &mut uses, decls);
    let (grown, found) = uses.finish();
    match walked {
        Ok(()) => Ok(FileUses {
            tables: grown,
            found,
        }),
        Err(fault) => {
            drop(grown);
            Err(fault)
        }
    }
}

/// Those that the declarations of a file use; none where it declares nothing.
fn uses_of_file(
    alloc: Global,
    tables: Tables,
    blocks: &Blocks,
    places: &[Scope],
    file: &FilePlace,
) -> Result<FileUses, NoMemory>
    requires ready { AreReady tables }
    requires places { KnowsPlaces tables.env blocks.now places.now }
    ensures ready { IfOk result (λ uses. AreReady uses.tables) }
    ensures known { IfOk result (λ uses. KnowsPlaces uses.tables.env blocks.now places.now) }
    ensures same { IfOk result (λ uses. SameWorlds tables.env uses.tables.env blocks.now) }
    ensures found { IfOk result (λ uses.
        FindsUses tables.env blocks.now places.now file.now uses.found) }
{
    places_know_final_types();
    walks_find_uses_of_headers();
    match place_of(places, file) {
        Some(place) => {
            let decls = file.tree.decls.items();
            uses_there(alloc, tables, blocks, places, place, decls)
        }
        None => {
            let found = NameSet::new(alloc);
            Ok(FileUses { tables, found })
        }
    }
}

/// The names that the declarations of each file use, of those at the top of the file (Go specification, Import
/// declarations). The names of the package blocks and the places of all files are known. The error is want of memory;
/// linear in the files but for look-ups.
pub(crate) fn names_used(
    alloc: Global,
    tables: Tables,
    blocks: &Blocks,
    places: &[Scope],
    files: &[FilePlace],
) -> Result<Vec<NameSet>, NoMemory>
    requires ready { AreReady tables }
    requires places { KnowsPlaces tables.env blocks.now places.now }
    ensures { IfOk result (λ used. FindsUsesOfAll tables.env blocks.now places.now files.now used.items) }
{
    let mut grown = tables;
    let mut used = Vec::new(alloc);
    for file in files {
        let FileUses {
            tables: more,
            found,
        } = uses_of_file(alloc, grown, blocks, places, file)?;
        grown = more;
        used.push(found)?;
    }
    Ok(used)
}
