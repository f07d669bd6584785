//! Imports to be added, in their order.

ghost use Rattle.std.specs.Prelude.{◌≡◌, ◌≤◌, IfOk, OnOk, length, map};
ghost use Rattle.pkg_graph.specs.ModuleFiles.Pieces.{comes_before};
ghost use Rattle.run_rules.specs.ImportRules.SpecText.{in_order, is_before, put};
ghost use Rattle.import_edit.specs.Order.{imports_of, place_of};

use go_tree::NoMemory;
use run_rules::import_rules::NewImport;
use std::alloc::Global;

#[tactic(auto, using(crate::proofs::OrderLaws::path_before))]
fn comes_before(path: &[u8], other: &[u8]) -> bool
    ensures { result ≡ comes_before path.now other.now }
{
    path.cmp(other).is_lt()
}

fn is_before(import: &NewImport, other: &NewImport) -> bool
    ensures { result ≡ is_before import.now other.now }
{
    comes_before(import.path.items(), other.path.items())
        || (!comes_before(other.path.items(), import.path.items())
            && !comes_before(other.name.items(), import.name.items()))
}

fn place_of(list: &[&NewImport], import: &NewImport) -> usize
    ensures place { result ≡ place_of import.now (imports_of list.now) }
    ensures within { result ≤ length list.now }
{
    for (i, other) in list.iter().enumerate() {
        if is_before(import, other) {
            return i;
        }
    }
    list.len()
}

fn put<'a>(list: &mut Vec<&'a NewImport>, import: &'a NewImport) -> Result<(), NoMemory>
    ensures { OnOk result (imports_of list.new.items ≡ put import.now (imports_of list.old.items)) }
{
    let place = place_of(list, import);
    list.insert(place, import)?;
    Ok(())
}

/// The imports by path and then name. Quadratic in their number, which is at most that of the module's packages.
pub(crate) fn in_order(alloc: Global, added: &[NewImport]) -> Result<Vec<&NewImport>, NoMemory>
    ensures { IfOk result (λ list. imports_of list.items ≡ in_order added.now) }
{
    let mut list = Vec::new(alloc);
    let mut left = added.len();
    while left > 0 {
        left -= 1;
        put(&mut list, &added[left])?;
    }
    Ok(list)
}
