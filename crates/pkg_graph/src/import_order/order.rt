//! The order of packages: each time the one with the least path whose imports are all placed.

ghost use Rattle.std.specs.Prelude.{◌≡◌, ◌<◌, ◌^◌, true, false, List, ℕ, [], length, take, slice_set};
ghost use Rattle.std.specs.Prelude.{IfOk, OnOk, IfSome, IfNone};
ghost use Rattle.pkg_graph.specs.ModuleFiles.PathLists.{has_path, path_at, AreDistinct};
ghost use Rattle.pkg_graph.specs.ImportOrder.Numbers.{is_among, row, is_marked, number_in, AreLinks, AreKept};
ghost use Rattle.pkg_graph.specs.ImportOrder.Numbers.{AreKeptBut, IsOpen, IsLeastOpen, MarksAre, FollowsNumbers};
ghost use Rattle.pkg_graph.specs.ImportOrder.Numbers.{RowsGrow, PathWaits, AreTried, AreWoken, AreMarked, ArePlaces};

use crate::import_order::rows::Rows;
use crate::module_files::paths::{PathSet, Paths};
use go_tree::NoMemory;
use std::alloc::Global;

/// Packages that are placed, by their numbers.
#[derive(Drop)]
pub struct Placed {
    pub order: Vec<u32>,
    pub marks: Vec<bool>,
}

/// The place of the first number from `start` on that isn't marked, or the end.
fn first_unmarked(numbers: &[usize], start: usize, marks: &[bool]) -> usize
    requires within { (m : ℕ) → is_among numbers.now m ≡ true → m < length marks.now }
    requires before { AreMarked marks.now (take start numbers.now) }
    ensures before { AreMarked marks.now (take result numbers.now) }
    ensures unmarked { result < length numbers.now → is_marked marks.now (number_in numbers.now result) ≡ false }
{
    for place in start..numbers.len() {
        if !marks[numbers[place]] {
            return place;
        }
    }
    numbers.len()
}

/// The paths of the packages that aren't marked.
pub(crate) fn unmarked_paths(
    alloc: Global,
    paths: &Paths,
    marks: &[bool],
) -> Result<PathSet, NoMemory>
    requires { length marks.now ≡ length paths.now }
    ensures { IfOk result (AreTried marks.now paths.now) }
{
    let mut set = PathSet::new(alloc);
    for (k, mark) in marks.iter().enumerate() {
        if !*mark {
            try_later(alloc, paths, k, &mut set)?;
        }
    }
    Ok(set)
}

/// The package with the path where it isn't marked and all that it imports is. Else it waits for one
/// that it imports, whose place among its imports is kept.
fn try_path(
    paths: &Paths,
    links: &Rows,
    marks: &[bool],
    places: &mut Vec<usize>,
    waiting: &mut Rows,
    path: &[u8],
) -> Result<Option<usize>, NoMemory>
    requires distinct { AreDistinct paths.now }
    requires within { AreLinks links.now }
    requires rows { length links.now ≡ length paths.now }
    requires marks { length marks.now ≡ length paths.now }
    requires places { ArePlaces links.now marks.now places.old.items }
    requires waiting { length waiting.old ≡ length paths.now }
    ensures open { IfOk result (λ r. IfSome r (IsOpen links.now marks.now)) }
    ensures places { OnOk result (ArePlaces links.now marks.now places.new.items) }
    ensures named { IfOk result (λ r. IfSome r (λ k. path_at paths.now k ≡ path.now)) }
    ensures grows { OnOk result (RowsGrow waiting.old waiting.new) }
    ensures size { OnOk result (length waiting.new ≡ length paths.now) }
    ensures waits { IfOk result (λ r. IfNone r (PathWaits links.now marks.now waiting.new paths.now path.now)) }
{
    let Some(k) = paths.number(path) else {
        return Ok(None);
    };
    if marks[k] {
        return Ok(None);
    }
    let imports = links.row(k);
    let place = first_unmarked(imports, places[k], marks);
    places[k] = place;
    if place < imports.len() {
        waiting.add(imports[place], k)?;
        Ok(None)
    } else {
        Ok(Some(k))
    }
}

/// Takes the package with the least path that isn't marked and all of whose imports are.
fn next_open(
    paths: &Paths,
    links: &Rows,
    marks: &[bool],
    places: &mut Vec<usize>,
    waiting: &mut Rows,
    tried: &mut PathSet,
) -> Result<Option<usize>, NoMemory>
    requires distinct { AreDistinct paths.now }
    requires within { AreLinks links.now }
    requires rows { length links.now ≡ length paths.now }
    requires marks { length marks.now ≡ length paths.now }
    requires places { ArePlaces links.now marks.now places.old.items }
    requires waiting { length waiting.old ≡ length paths.now }
    requires kept { AreKept links.now marks.now waiting.old paths.now tried.old }
    ensures open { IfOk result (λ r. IfSome r (IsOpen links.now marks.now)) }
    ensures least { IfOk result (λ r. IfSome r (λ k. IsLeastOpen links.now marks.now paths.now (path_at paths.now k))) }
    ensures none { IfOk result (λ r. IfNone r ((j : ℕ) → IsOpen links.now marks.now j → ⊥)) }
    ensures kept { IfOk result (λ r. IfSome r (λ k. AreKeptBut links.now marks.now waiting.new paths.now tried.new k)) }
    ensures places { OnOk result (ArePlaces links.now marks.now places.new.items) }
    ensures size { OnOk result (length waiting.new ≡ length paths.now) }
{
    while let Some(path) = tried.take_first() {
        if let Some(k) = try_path(paths, links, marks, places, waiting, &path)? {
            return Ok(Some(k));
        }
    }
    Ok(None)
}

/// Lets the package be tried.
fn try_later(alloc: Global, paths: &Paths, k: usize, tried: &mut PathSet) -> Result<(), NoMemory>
    ensures kept { OnOk result ((q : List ℕ) → has_path tried.old q ≡ true → has_path tried.new q ≡ true) }
    ensures added { OnOk result (k < length paths.now → has_path tried.new (path_at paths.now k) ≡ true) }
{
    if k < paths.len() {
        tried.add(paths.path(k).to_vec(alloc)?)?;
    }
    Ok(())
}

/// Lets those that wait for the package be tried.
fn wake(
    alloc: Global,
    paths: &Paths,
    waiting: &mut Rows,
    k: usize,
    tried: &mut PathSet,
) -> Result<(), NoMemory>
    requires { k < length waiting.old }
    ensures kept { OnOk result ((q : List ℕ) → has_path tried.old q ≡ true → has_path tried.new q ≡ true) }
    ensures woken { OnOk result (AreWoken (row waiting.old k) paths.now tried.new) }
    ensures rest { OnOk result (waiting.new ≡ slice_set waiting.old k []) }
{
    for j in &waiting.take(alloc, k) {
        try_later(alloc, paths, *j, tried)?;
    }
    Ok(())
}

/// The packages in the order of their imports: each time the one with the least path whose imports are
/// all placed. Each import is looked at twice at most.
pub fn dependency_order(alloc: Global, paths: &Paths, links: &Rows) -> Result<Placed, NoMemory>
    requires distinct { AreDistinct paths.now }
    requires within { AreLinks links.now }
    requires rows { length links.now ≡ length paths.now }
    requires small { length paths.now < 2 ^ 32 }
    ensures order { IfOk result (λ p. FollowsNumbers links.now paths.now [] p.order.items) }
    ensures marks { IfOk result (λ p. MarksAre p.marks.items p.order.items) }
    ensures size { IfOk result (λ p. length p.marks.items ≡ length paths.now) }
{
    let mut marks = vec![in alloc; false; paths.len()]?;
    let mut order = Vec::new(alloc);
    let mut places = vec![in alloc; 0; paths.len()]?;
    let mut waiting = Rows::new(alloc, paths.len())?;
    let mut tried = unmarked_paths(alloc, paths, &marks)?;
    while let Some(k) = next_open(paths, links, &marks, &mut places, &mut waiting, &mut tried)? {
        marks[k] = true;
        order.push(k as u32)?;
        wake(alloc, paths, &mut waiting, k, &mut tried)?;
    }
    Ok(Placed { order, marks })
}
