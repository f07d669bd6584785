//! Numbers by the first from which links lead to them.

ghost use Rattle.std.specs.Prelude.{◌≡◌, ◌<◌, length, IfOk, OnOk};
ghost use Rattle.pkg_graph.specs.ImportOrder.Numbers.{AreLinks};
ghost use Rattle.number_cycles.specs.Owners.{AllFrom, AreOwned, IsFrom, owner_of};

use go_tree::NoMemory;
use pkg_graph::import_order::rows::Rows;
use std::alloc::Global;

/// The owner of a number, if it has one.
pub(crate) fn owner(owners: &[Option<usize>], k: usize) -> Option<usize>
    ensures { result ≡ owner_of owners.now k }
{
    match owners.get(k) {
        None => None,
        Some(owner) => *owner,
    }
}

/// Whether both numbers have the same owner, where owners are told.
fn stays_within(within: Option<&[Option<usize>]>, a: usize, b: usize) -> bool {
    match within {
        None => true,
        Some(owners) => match (owner(owners, a), owner(owners, b)) {
            (Some(one), Some(other)) => one == other,
            _ => false,
        },
    }
}

/// Gives the number to this owner, where it has none, and puts it among those that are to be walked from.
fn take(
    links: &Rows,
    m: usize,
    root: usize,
    owners: &mut [Option<usize>],
    walk: &mut Vec<usize>,
) -> Result<(), NoMemory>
    requires within { m < length owners.old }
    requires from { IsFrom links.now root m }
    requires owned { AreOwned links.now owners.old }
    requires walk { AllFrom links.now root walk.old.items }
    ensures size { length owners.new ≡ length owners.old }
    ensures owned { OnOk result (AreOwned links.now owners.new) }
    ensures walk { OnOk result (AllFrom links.now root walk.new.items) }
{
    if owners[m].is_none() {
        owners[m] = Some(root);
        walk.push(m)?;
    }
    Ok(())
}

/// Gives what the number links to to this owner.
fn take_row(
    links: &Rows,
    k: usize,
    root: usize,
    within: Option<&[Option<usize>]>,
    owners: &mut [Option<usize>],
    walk: &mut Vec<usize>,
) -> Result<(), NoMemory>
    requires links { AreLinks links.now }
    requires size { length owners.old ≡ length links.now }
    requires number { k < length links.now }
    requires from { IsFrom links.now root k }
    requires owned { AreOwned links.now owners.old }
    requires walk { AllFrom links.now root walk.old.items }
    ensures size { length owners.new ≡ length owners.old }
    ensures owned { OnOk result (AreOwned links.now owners.new) }
    ensures walk { OnOk result (AllFrom links.now root walk.new.items) }
{
    for m in links.row(k) {
        if stays_within(within, *m, root) {
            take(links, *m, root, owners, walk)?;
        }
    }
    Ok(())
}

/// Gives all that links lead to from those that are to be walked from to this owner.
fn spread(
    links: &Rows,
    root: usize,
    within: Option<&[Option<usize>]>,
    owners: &mut [Option<usize>],
    walk: &mut Vec<usize>,
) -> Result<(), NoMemory>
    requires links { AreLinks links.now }
    requires size { length owners.old ≡ length links.now }
    requires root { root < length links.now }
    requires owned { AreOwned links.now owners.old }
    requires walk { AllFrom links.now root walk.old.items }
    ensures size { length owners.new ≡ length owners.old }
    ensures owned { OnOk result (AreOwned links.now owners.new) }
{
    for round in 0..u64::MAX {
        let _ = round;
        let Some(k) = walk.pop() else {
            return Ok(());
        };
        take_row(links, k, root, within, owners, walk)?;
    }
    Ok(())
}

/// Gives the number, where it has no owner, and all that links lead to from it and that has none, to the number.
fn own_from(
    alloc: Global,
    links: &Rows,
    root: usize,
    within: Option<&[Option<usize>]>,
    owners: &mut [Option<usize>],
) -> Result<(), NoMemory>
    requires links { AreLinks links.now }
    requires size { length owners.old ≡ length links.now }
    requires owned { AreOwned links.now owners.old }
    ensures size { length owners.new ≡ length owners.old }
    ensures owned { OnOk result (AreOwned links.now owners.new) }
{
    if root < owners.len() {
        let mut walk = Vec::new(alloc);
        take(links, root, root, owners, &mut walk)?;
        spread(links, root, within, owners, &mut walk)?;
    }
    Ok(())
}

/// Gives each number of the order, the last first, and what links lead to from it, to an owner.
fn own_each(
    alloc: Global,
    links: &Rows,
    order: &[usize],
    within: Option<&[Option<usize>]>,
    owners: &mut [Option<usize>],
) -> Result<(), NoMemory>
    requires links { AreLinks links.now }
    requires size { length owners.old ≡ length links.now }
    requires owned { AreOwned links.now owners.old }
    ensures size { length owners.new ≡ length owners.old }
    ensures owned { OnOk result (AreOwned links.now owners.new) }
{
    for place in 0..order.len() {
        let root = order[order.len() - 1 - place];
        own_from(alloc, links, root, within, owners)?;
    }
    Ok(())
}

/// For each number its owner: the first, of those behind in the order, from which links lead to it, or the number
/// itself. Where owners are told, links are followed only between numbers of one owner. Linear in the links.
#[tactic(auto, using(crate::proofs::Owned::none_owned))]
pub(crate) fn owners_by(
    alloc: Global,
    links: &Rows,
    order: &[usize],
    within: Option<&[Option<usize>]>,
) -> Result<Vec<Option<usize>>, NoMemory>
    requires { AreLinks links.now }
    ensures size { IfOk result (λ owners. length owners.items ≡ length links.now) }
    ensures owned { IfOk result (λ owners. AreOwned links.now owners.items) }
{
    let mut owners = vec![in alloc; None; links.len()]?;
    own_each(alloc, links, order, within, &mut owners)?;
    Ok(owners)
}
