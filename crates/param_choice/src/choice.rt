//! The greatest safe set of parameters.

ghost use Rattle.std.specs.Prelude.{◌≡◌, ℕ, ◌<◌, ◌^◌, ◌↔◌, Bool, false, IsTrue, IfOk};
ghost use Rattle.std.specs.Prelude.{MatchOption, MatchBool, length};
ghost use Rattle.param_choice.specs.Chosen.{has};
ghost use Rattle.param_choice.specs.Safe.{IsSafe, union};
ghost use Rattle.param_choice.specs.Greatest.{IsGreatest};
ghost use Rattle.param_choice.specs.Strikes.{ClashNeeds, NameNeeds, Lacks, LacksOne, NoneLacks, Precedes, MovesAlone};
ghost use Rattle.param_choice.specs.Strikes.{Fits, IsOpen};

use crate::chosen::{Chosen, is_kept};
use crate::no_memory::NoMemory;
use crate::table::CallTable;
use order_hazards::{ParamRow, before, clash, solo};
use std::alloc::Global;

/// The greatest safe set of the call's parameters; where `constants` is false, the greatest among the
/// parameters whose arguments aren't constants.
pub fn choose(alloc: Global, t: &CallTable, constants: bool) -> Result<Chosen, NoMemory>
    requires { length t.now.rows < 2 ^ 32 }
    ensures greatest { IfOk result (λ c. IsGreatest t.now constants (has c)) }
    ensures exists { (s : ℕ → Bool) × IsGreatest t.now constants s }
    ensures unions { (s u : ℕ → Bool) → IsSafe t.now s → IsSafe t.now u → IsSafe t.now (union s u) }
{
    let mut kept = candidates(alloc, t, constants)?;
    strike_out(t, &mut kept);
    Ok(Chosen::new(kept))
}

// The parameters that may be chosen as far as no other has to be.
fn candidates(alloc: Global, t: &CallTable, constants: bool) -> Result<Vec<bool>, NoMemory>
    requires { length t.now.rows < 2 ^ 32 }
    ensures { IfOk result (λ v. IsOpen t.now constants v.items) }
{
    let rows = t.rows.items().len();
    let mut kept = Vec::with_capacity(alloc, rows)?;
    for i in 0..rows {
        kept.push(fits(t, constants, i))?;
    }
    Ok(kept)
}

fn fits(t: &CallTable, constants: bool, i: usize) -> bool
    requires inside { i < length t.now.rows }
    requires few { length t.now.rows < 2 ^ 32 }
    ensures { IsTrue result ↔ Fits t.now constants i }
{
    moves_alone(&t.rows.items()[i], i as u32, t, constants) && precedes_clashing(t, i)
}

// Whether the argument is wanted, and may be moved as far as it alone tells.
fn moves_alone(row: &ParamRow, i: u32, t: &CallTable, constants: bool) -> bool
    ensures { IsTrue result ↔ MovesAlone t.now constants i row.now }
{
    (constants || !row.constant) && solo(row, i, t.items.items(), t.body_writes)
}

// Whether the uses of parameter `i` come before those of each later parameter with which it clashes.
fn precedes_clashing(t: &CallTable, i: usize) -> bool
    requires inside { i < length t.now.rows }
    requires few { length t.now.rows < 2 ^ 32 }
    ensures { IsTrue result ↔ ((j : ℕ) → Precedes t.now i j) }
{
    for j in i + 1..t.rows.items().len() {
        if !precedes(t, i, j) {
            return false;
        }
    }
    true
}

fn precedes(t: &CallTable, i: usize, j: usize) -> bool
    requires mine { i < length t.now.rows }
    requires other { j < length t.now.rows }
    requires few { length t.now.rows < 2 ^ 32 }
    ensures { IsTrue result ↔ Precedes t.now i j }
{
    !clashes(t, i, j) || before(t.items.items(), i as u32, t.rows.items()[i].uses, j as u32)
}

// Whether parameter `j` is a later one with which `i` clashes.
fn clashes(t: &CallTable, i: usize, j: usize) -> bool
    requires mine { i < length t.now.rows }
    requires other { j < length t.now.rows }
    ensures { IsTrue result ↔ ClashNeeds t.now i j }
{
    let rows = t.rows.items();
    i < j && clash(rows[i].class, rows[j].class)
}

// Strikes out what needs a parameter that is out, until nothing does.
fn strike_out(t: &CallTable, kept: &mut [bool])
    requires { length kept.old ≡ length t.now.rows }
    ensures { (constants : Bool) → IsOpen t.now constants kept.old → IsGreatest t.now constants (has kept.new) }
{
    while let Some(i) = lacking(t, kept) {
        kept[i] = false;
    }
}

// A kept parameter that needs one that is out.
fn lacking(t: &CallTable, kept: &[bool]) -> Option<usize>
    requires { length kept.now ≡ length t.now.rows }
    ensures { MatchOption result ((i j : ℕ) → ¬ Lacks t.now kept.now i j) (λ i. (j : ℕ) × Lacks t.now kept.now i j) }
{
    match lacking_later(t, kept) {
        Some(i) => Some(i),
        None => lacking_named(t, kept),
    }
}

// A kept parameter that clashes with a later one that is out.
fn lacking_later(t: &CallTable, kept: &[bool]) -> Option<usize>
    requires { length kept.now ≡ length t.now.rows }
    ensures { MatchOption result (NoneLacks (ClashNeeds t.now) kept.now) (LacksOne (ClashNeeds t.now) kept.now) }
{
    for i in 0..kept.len() {
        if kept[i] && lacks_later(t, kept, i) {
            return Some(i);
        }
    }
    None
}

fn lacks_later(t: &CallTable, kept: &[bool], i: usize) -> bool
    requires same { length kept.now ≡ length t.now.rows }
    requires inside { i < length t.now.rows }
    ensures { MatchBool result
        ((j : ℕ) × (has kept.now j ≡ false) × ClashNeeds t.now i j)
        ((j : ℕ) → ClashNeeds t.now i j → IsTrue (has kept.now j)) }
{
    for j in i + 1..kept.len() {
        if !kept[j] && clashes(t, i, j) {
            return true;
        }
    }
    false
}

// A kept parameter whose argument names another that is out.
fn lacking_named(t: &CallTable, kept: &[bool]) -> Option<usize>
    ensures { MatchOption result (NoneLacks (NameNeeds t.now) kept.now) (LacksOne (NameNeeds t.now) kept.now) }
{
    for (i, j) in t.names.items() {
        if i != j && is_kept(kept, *i) && !is_kept(kept, *j) {
            return Some(*i as usize);
        }
    }
    None
}
