//! Numbers on cycles.

ghost use Rattle.std.specs.Prelude.{◌≡◌, ◌<◌, true, false, ℕ, length, IfOk};
ghost use Rattle.std.specs.Bool.{OnFalse, OnTrue};
ghost use Rattle.std.specs.List.{list_all};
ghost use Rattle.pkg_graph.specs.ImportOrder.Numbers.{AreLinks, Reaches, is_among, is_marked, row};
ghost use Rattle.pkg_graph.specs.ImportOrder.Ranks.{NoneDescends, is_above, is_from};
ghost use Rattle.number_cycles.specs.Owners.{AreOwned, AreOwnedBack, Meets};

use crate::order::left_in_turn;
use crate::owners::{owner, owners_by};
use crate::reversed::reversed;
use go_tree::NoMemory;
use pkg_graph::import_order::rows::Rows;
use std::alloc::{AllocError, Global};

/// Gives each number of the order, the last first, its turn.
fn put_turns(order: &[usize], turns: &mut [usize])
    ensures { length turns.new ≡ length turns.old }
{
    for place in 0..order.len() {
        let number = order[order.len() - 1 - place];
        if number < turns.len() {
            turns[number] = place;
        }
    }
}

/// Gives each number the turn of its owner as its rank.
fn put_ranks(owners: &[Option<usize>], turns: &[usize], ranks: &mut [usize])
    ensures { length ranks.new ≡ length ranks.old }
{
    for k in 0..ranks.len() {
        if let Some(root) = owner(owners, k) {
            if root < turns.len() {
                ranks[k] = turns[root];
            }
        }
    }
}

/// A rank for each of so many numbers, which is that of its owner in the order, the last first.
fn ranks_of(
    alloc: Global,
    count: usize,
    order: &[usize],
    owners: &[Option<usize>],
) -> Result<Vec<usize>, NoMemory>
    ensures { IfOk result (λ ranks. length ranks.items ≡ count) }
{
    let mut turns = vec![in alloc; 0; count]?;
    put_turns(order, &mut turns);
    let mut ranks = vec![in alloc; 0; count]?;
    put_ranks(owners, &turns, &mut ranks);
    Ok(ranks)
}

/// Each of the numbers has this rank or a higher one.
fn are_from(numbers: &[usize], ranks: &Vec<usize>, rank: usize) -> bool
    requires { (m : ℕ) → is_among numbers.now m ≡ true → m < length ranks.now.items }
    ensures { OnTrue result (list_all (is_from ranks.now.items rank) numbers.now ≡ true) }
{
    for number in numbers {
        if ranks[*number] < rank {
            return false;
        }
    }
    true
}

/// Each of the numbers has a higher rank.
fn are_above(numbers: &[usize], ranks: &Vec<usize>, rank: usize) -> bool
    requires { (m : ℕ) → is_among numbers.now m ≡ true → m < length ranks.now.items }
    ensures { OnTrue result (list_all (is_above ranks.now.items rank) numbers.now ≡ true) }
{
    for number in numbers {
        if ranks[*number] <= rank {
            return false;
        }
    }
    true
}

/// No link leads to a lower rank.
fn none_descends(links: &Rows, ranks: &Vec<usize>) -> bool
    requires within { AreLinks links.now }
    requires size { length ranks.now.items ≡ length links.now }
    ensures { OnTrue result (NoneDescends links.now ranks.now.items) }
{
    for k in 0..links.len() {
        if !are_from(links.row(k), ranks, ranks[k]) {
            return false;
        }
    }
    true
}

/// Whether links lead from `m` to the owner from which they lead to `k`.
fn meets(m: usize, k: usize, backs: &[Option<usize>], fronts: &[Option<usize>]) -> bool
    ensures { OnTrue result (Meets backs.now fronts.now m k) }
{
    match (owner(backs, m), owner(fronts, k)) {
        (Some(one), Some(other)) => one == other,
        _ => false,
    }
}

/// Whether `k`, which links to `m`, is it, or is led back to from there by an owner.
fn closes_by(
    links: &Rows,
    k: usize,
    m: usize,
    backs: &[Option<usize>],
    fronts: &[Option<usize>],
) -> bool
    requires link { is_among (row links.now k) m ≡ true }
    requires backs { AreOwnedBack links.now backs.now }
    requires fronts { AreOwned links.now fronts.now }
    ensures { OnTrue result (Reaches links.now k k) }
{
    if m == k {
        return true;
    }
    if meets(m, k, backs, fronts) {
        return true;
    }
    false
}

/// Whether one of the numbers that `k` links to closes a cycle.
fn closes(links: &Rows, k: usize, backs: &[Option<usize>], fronts: &[Option<usize>]) -> bool
    requires number { k < length links.now }
    requires backs { AreOwnedBack links.now backs.now }
    requires fronts { AreOwned links.now fronts.now }
    ensures { OnTrue result (Reaches links.now k k) }
{
    for m in links.row(k) {
        if closes_by(links, k, *m, backs, fronts) {
            return true;
        }
    }
    false
}

/// Whether the number lies on a cycle. Owners and ranks tell it where the order is right; else it is an error.
fn is_on_cycle(
    links: &Rows,
    k: usize,
    backs: &[Option<usize>],
    fronts: &[Option<usize>],
    ranks: &Vec<usize>,
) -> Result<bool, NoMemory>
    requires within { AreLinks links.now }
    requires number { k < length links.now }
    requires backs { AreOwnedBack links.now backs.now }
    requires fronts { AreOwned links.now fronts.now }
    requires size { length ranks.now.items ≡ length links.now }
    requires ascend { NoneDescends links.now ranks.now.items }
    ensures on { IfOk result (λ b. OnTrue b (Reaches links.now k k)) }
    ensures off { IfOk result (λ b. OnFalse b (Reaches links.now k k → ⊥)) }
{
    if closes(links, k, backs, fronts) {
        return Ok(true);
    }
    if are_above(links.row(k), ranks, ranks[k]) {
        return Ok(false);
    }
    Err(AllocError)
}

/// For each number whether it lies on a cycle of links. An error where memory is refused. Linear in the numbers and the
/// links.
#[tactic(auto, using(crate::proofs::Closed::owned_back, crate::proofs::Back::back_links))]
pub fn on_cycles(alloc: Global, links: &Rows) -> Result<Vec<bool>, NoMemory>
    requires { AreLinks links.now }
    ensures size { IfOk result (λ flags. length flags.items ≡ length links.now) }
    ensures on { IfOk result (λ flags. (k : ℕ) → is_marked flags.items k ≡ true → Reaches links.now k k) }
    ensures off { IfOk result (λ flags. (k : ℕ) → is_marked flags.items k ≡ false → Reaches links.now k k → ⊥) }
{
    let order = left_in_turn(alloc, links)?;
    let back = reversed(alloc, links)?;
    let backs = owners_by(alloc, &back, &order, None)?;
    let fronts = owners_by(alloc, links, &order, Some(backs.as_slice()))?;
    let ranks = ranks_of(alloc, links.len(), &order, &backs)?;
    if !none_descends(links, &ranks) {
        return Err(AllocError);
    }
    let mut flags = Vec::new(alloc);
    for k in 0..links.len() {
        let flag = is_on_cycle(links, k, &backs, &fronts, &ranks)?;
        flags.push(flag)?;
    }
    Ok(flags)
}
