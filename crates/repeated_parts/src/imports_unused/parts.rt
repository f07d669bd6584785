//! The parts of a file's declarations.

ghost use Rattle.std.specs.Prelude.{◌≡◌, IfOk, map, nat_eq};
ghost use Rattle.go_tree.specs.FileView.{decl_of};
ghost use Rattle.scope_tables.specs.Table.{table_of};
ghost use Rattle.member_uses.specs.PossibleUses.Views.{part_of};
ghost use Rattle.repeated_parts.specs.ImportsUnused.Uses.{all_parts, uses_among};

use crate::imports_unused::names::{is_import, part_import};
use go_tree::{Decl, NoMemory};
use member_uses::possible_uses::{PartRef, decl_parts};
use scope_tables::Scopes;
use std::alloc::Global;

/// The parts of declarations that may be uses, in their order; an error where memory is refused. Linear in the
/// declarations.
pub fn file_parts<'a>(alloc: Global, decls: &'a [Decl]) -> Result<Vec<PartRef<'a>>, NoMemory>
    ensures { IfOk result (λ list. map part_of list.items ≡ all_parts (map decl_of decls.now)) }
{
    let mut list = Vec::new(alloc);
    for decl in decls {
        let parts = decl_parts(alloc, decl)?;
        list.extend_from_slice(&parts)?;
    }
    Ok(list)
}

/// Whether just one of the parts uses the import.
pub(crate) fn is_used_once(scopes: &Scopes, parts: &[PartRef], number: u32) -> bool
    ensures { result ≡ nat_eq (uses_among (table_of scopes.now) (λ s. s) number (map part_of parts.now)) 1 }
{
    let mut once = false;
    for part in parts {
        if is_import(number, part_import(scopes, *part)) {
            if once {
                return false;
            }
            once = true;
        }
    }
    once
}
