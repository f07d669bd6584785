//! The least package on a cycle of imports.

ghost use Rattle.std.specs.Prelude.{◌≡◌, ◌<◌, ◌==◌, ◌||◌, true, ℕ, length, IfOk, OnOk, IfSome};
ghost use Rattle.std.specs.Prelude.{IfNone};
ghost use Rattle.std.specs.Bool.{OnTrue, OnFalse};
ghost use Rattle.std.specs.List.{list_all};
ghost use Rattle.pkg_graph.specs.ModuleFiles.PathLists.{AreDistinct};
ghost use Rattle.pkg_graph.specs.ImportOrder.Numbers.{is_among, is_marked, left_to_walk, AddsUnmarked, AreLinks, Reaches};
ghost use Rattle.pkg_graph.specs.ImportOrder.Numbers.{IsWalk, IsLeast};
ghost use Rattle.pkg_graph.specs.ImportOrder.Ranks.{is_from, is_above, NoneDescends};

use crate::import_order::order::unmarked_paths;
use crate::import_order::ranks::ranks;
use crate::import_order::rows::Rows;
use crate::module_files::paths::Paths;
use go_tree::NoMemory;
use std::alloc::Global;

/// Marks the number, and puts it among those that are to be walked where it wasn't marked.
fn mark(number: usize, marks: &mut [bool], walk: &mut Vec<usize>) -> Result<(), NoMemory>
    requires { number < length marks.old }
    ensures size { length marks.new ≡ length marks.old }
    ensures marked { OnOk result ((m : ℕ) → is_marked marks.new m ≡ is_marked marks.old m || number == m) }
    ensures walked { OnOk result (AddsUnmarked (λ m. number == m) marks.old walk.old.items walk.new.items) }
    ensures count { OnOk result (left_to_walk walk.new.items marks.new ≡ left_to_walk walk.old.items marks.old) }
{
    if !marks[number] {
        marks[number] = true;
        walk.push(number)?;
    }
    Ok(())
}

/// Marks the numbers, and puts those that weren't marked among those that are to be walked.
fn mark_row(numbers: &[usize], marks: &mut [bool], walk: &mut Vec<usize>) -> Result<(), NoMemory>
    requires { (m : ℕ) → is_among numbers.now m ≡ true → m < length marks.old }
    ensures size { length marks.new ≡ length marks.old }
    ensures marked { OnOk result ((m : ℕ) → is_marked marks.new m ≡ is_marked marks.old m || is_among numbers.now m) }
    ensures walked { OnOk result (AddsUnmarked (is_among numbers.now) marks.old walk.old.items walk.new.items) }
    ensures count { OnOk result (left_to_walk walk.new.items marks.new ≡ left_to_walk walk.old.items marks.old) }
{
    for number in numbers {
        mark(*number, marks, walk)?;
    }
    Ok(())
}

/// Marks all that imports lead to from the package, and tells whether it is among them.
fn walk_on(
    links: &Rows,
    start: usize,
    marks: &mut [bool],
    walk: &mut Vec<usize>,
) -> Result<bool, NoMemory>
    requires within { AreLinks links.now }
    requires start { start < length links.now }
    requires size { length marks.old ≡ length links.now }
    requires walk { IsWalk links.now start marks.old walk.old.items }
    ensures back { IfOk result (λ b. OnTrue b (Reaches links.now start start)) }
    ensures not { IfOk result (λ b. OnFalse b (Reaches links.now start start → ⊥)) }
{
    while let Some(k) = walk.pop() {
        mark_row(links.row(k), marks, walk)?;
    }
    Ok(marks[start])
}

/// Whether imports lead from the package back to itself.
fn leads_back(alloc: Global, links: &Rows, start: usize) -> Result<bool, NoMemory>
    requires within { AreLinks links.now }
    requires start { start < length links.now }
    ensures back { IfOk result (λ b. OnTrue b (Reaches links.now start start)) }
    ensures not { IfOk result (λ b. OnFalse b (Reaches links.now start start → ⊥)) }
{
    let mut marks = vec![in alloc; false; links.len()]?;
    let mut walk = vec![in alloc; start]?;
    walk_on(links, start, &mut marks, &mut walk)
}

/// Each of the packages has this rank or a higher one.
fn are_from(numbers: &[usize], ranks: &Vec<usize>, rank: usize) -> bool
    requires { (m : ℕ) → is_among numbers.now m ≡ true → m < length ranks.now.items }
    ensures { OnTrue result (list_all (is_from ranks.now.items rank) numbers.now ≡ true) }
{
    for number in numbers {
        if ranks[*number] < rank {
            return false;
        }
    }
    true
}

/// Each of the packages has a higher rank.
fn are_above(numbers: &[usize], ranks: &Vec<usize>, rank: usize) -> bool
    requires { (m : ℕ) → is_among numbers.now m ≡ true → m < length ranks.now.items }
    ensures { OnTrue result (list_all (is_above ranks.now.items rank) numbers.now ≡ true) }
{
    for number in numbers {
        if ranks[*number] <= rank {
            return false;
        }
    }
    true
}

/// No import leads to a lower rank.
fn none_descends(links: &Rows, ranks: &Vec<usize>) -> bool
    requires within { AreLinks links.now }
    requires size { length ranks.now.items ≡ length links.now }
    ensures { OnTrue result (NoneDescends links.now ranks.now.items) }
{
    for k in 0..links.len() {
        if !are_from(links.row(k), ranks, ranks[k]) {
            return false;
        }
    }
    true
}

/// Whether the package lies on a cycle of imports. It is walked from only where its ranks don't tell;
/// `ascend` says that no import leads to a lower one.
fn is_on_cycle(
    alloc: Global,
    links: &Rows,
    ranks: &Vec<usize>,
    ascend: bool,
    k: usize,
) -> Result<bool, NoMemory>
    requires within { AreLinks links.now }
    requires start { k < length links.now }
    requires size { length ranks.now.items ≡ length links.now }
    requires ascend { OnTrue ascend (NoneDescends links.now ranks.now.items) }
    ensures on { IfOk result (λ b. OnTrue b (Reaches links.now k k)) }
    ensures off { IfOk result (λ b. OnFalse b (Reaches links.now k k → ⊥)) }
{
    if ascend && are_above(links.row(k), ranks, ranks[k]) {
        return Ok(false);
    }
    leads_back(alloc, links, k)
}

/// The package with the least path that lies on a cycle of imports. Packages that are marked lie on
/// none.
pub fn least_on_cycle(
    alloc: Global,
    paths: &Paths,
    links: &Rows,
    marks: &[bool],
) -> Result<Option<usize>, NoMemory>
    requires distinct { AreDistinct paths.now }
    requires within { AreLinks links.now }
    requires rows { length links.now ≡ length paths.now }
    requires marks { length marks.now ≡ length paths.now }
    requires off { (k : ℕ) → is_marked marks.now k ≡ true → Reaches links.now k k → ⊥ }
    ensures number { IfOk result (λ r. IfSome r (λ k. k < length paths.now)) }
    ensures lies { IfOk result (λ r. IfSome r (λ k. Reaches links.now k k)) }
    ensures least { IfOk result (λ r. IfSome r (IsLeast links.now paths.now)) }
    ensures none { IfOk result (λ r. IfNone r ((j : ℕ) → Reaches links.now j j → ⊥)) }
{
    let ranks = ranks(alloc, links)?;
    let ascend = none_descends(links, &ranks);
    let mut left = unmarked_paths(alloc, paths, marks)?;
    while let Some(path) = left.take_first() {
        if let Some(k) = paths.number(&path) {
            if is_on_cycle(alloc, links, &ranks, ascend, k)? {
                return Ok(Some(k));
            }
        }
    }
    Ok(None)
}
