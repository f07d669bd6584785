//! Links the other way round.

ghost use Rattle.std.specs.Prelude.{◌≡◌, ◌<◌, true, ℕ, length, IfOk, OnOk};
ghost use Rattle.pkg_graph.specs.ImportOrder.Numbers.{AreLinks, is_among};
ghost use Rattle.number_cycles.specs.Owners.{AddsBack, AreBack};

use go_tree::NoMemory;
use pkg_graph::import_order::rows::Rows;
use std::alloc::Global;

/// Adds the number to the rows of those that it links to.
fn add_back(numbers: &[usize], k: usize, rows: &mut Rows) -> Result<(), NoMemory>
    requires { (m : ℕ) → is_among numbers.now m ≡ true → m < length rows.old }
    ensures size { OnOk result (length rows.new ≡ length rows.old) }
    ensures added { OnOk result (AddsBack numbers.now k rows.old rows.new) }
{
    for m in numbers {
        rows.add(*m, k)?;
    }
    Ok(())
}

/// For each number those that link to it.
#[tactic(auto, using(crate::proofs::Back::none_back, crate::proofs::Back::one_back))]
pub(crate) fn reversed(alloc: Global, links: &Rows) -> Result<Rows, NoMemory>
    requires { AreLinks links.now }
    ensures size { IfOk result (λ rows. length rows ≡ length links.now) }
    ensures back { IfOk result (AreBack links.now) }
{
    let mut rows = Rows::new(alloc, links.len())?;
    for k in 0..links.len() {
        add_back(links.row(k), k, &mut rows)?;
    }
    Ok(rows)
}
