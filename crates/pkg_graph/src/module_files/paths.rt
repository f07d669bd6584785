//! Paths by their numbers, and sets of paths in their order.

ghost use Rattle.std.specs.Prelude.{◌≡◌, [], ◌∷◌, IfOk, OnOk, IfSome, IfNone, true, not, ◌||◌};
ghost use Rattle.std.specs.Prelude.{bytes_eq, All, length, ◌<◌};
ghost use Rattle.std.specs.Prelude.{Some, List, ℕ};
ghost use Rattle.pkg_graph.specs.ModuleFiles.Pieces.{comes_before};
ghost use Rattle.pkg_graph.specs.ModuleFiles.PathLists.{has_path, number_of, path_at, with_path};

use go_tree::NoMemory;
use indexmap::IndexSet;
use std::alloc::Global;
use std::collections::BTreeSet;
use std::marker::Model;

/// Distinct paths, numbered from 0 in the order in which they came.
#[derive(Drop)]
pub struct Paths {
    keys: IndexSet<Vec<u8>>,
}

impl Model for Paths {
    ghost use Rattle.std.specs.Prelude.{List, ℕ, map};

    ghost Value = { List (List ℕ) };

    ghost view = { λ a. map (λ k. k.items) a.keys.keys };
}

impl Paths {
    /// No paths.
    pub fn new(alloc: Global) -> Self
        ensures { result ≡ [] }
    {
        Paths {
            keys: IndexSet::new(alloc),
        }
    }

    /// Adds the path as the last one unless it is there, and gives its number and whether it is new.
    pub fn add(&mut self, path: Vec<u8>) -> Result<(usize, bool), NoMemory>
        ensures added { OnOk result (self.new ≡ with_path self.old path.items) }
        ensures number { IfOk result (λ r. number_of self.new path.items ≡ Some r.0) }
        ensures is_new { IfOk result (λ r. r.1 ≡ not (has_path self.old path.items)) }
    {
        let (number, is_new) = self.keys.insert_full(path)?;
        Ok((number, is_new))
    }

    /// The number of the path.
    pub fn number(&self, path: &[u8]) -> Option<usize>
        ensures { result ≡ number_of self.now path.now }
    {
        self.keys.get_index_of(path)
    }

    /// Whether the path is there.
    pub fn has(&self, path: &[u8]) -> bool
        ensures { result ≡ has_path self.now path.now }
    {
        self.keys.contains(path)
    }

    /// The path with this number.
    pub fn path(&self, number: usize) -> &[u8]
        requires { number < length self.now }
        ensures { result.now ≡ path_at self.now number }
    {
        &self.keys[number]
    }

    /// How many paths.
    pub fn len(&self) -> usize
        ensures { result ≡ length self.now }
    {
        self.keys.len()
    }
}

/// A set of paths in ascending order.
#[derive(Drop)]
pub struct PathSet {
    keys: BTreeSet<Vec<u8>>,
}

impl Model for PathSet {
    ghost use Rattle.std.specs.Prelude.{List, ℕ, map};

    ghost Value = { List (List ℕ) };

    ghost view = { λ a. map (λ k. k.items) a.keys.keys };
}

impl PathSet {
    /// No paths.
    pub fn new(alloc: Global) -> Self
        ensures { result ≡ [] }
    {
        PathSet {
            keys: BTreeSet::new(alloc),
        }
    }

    /// Adds the path.
    pub fn add(&mut self, path: Vec<u8>) -> Result<(), NoMemory>
        ensures { OnOk result ((q : List ℕ) → has_path self.new q ≡ bytes_eq q path.items || has_path self.old q) }
    {
        self.keys.insert(path)?;
        Ok(())
    }

    /// Takes the first path.
    pub fn take_first(&mut self) -> Option<Vec<u8>>
        ensures first { IfSome result (λ p. self.old ≡ p.items ∷ self.new) }
        ensures least { IfSome result (λ p. All (λ q. comes_before p.items q ≡ true) self.new) }
        ensures none { IfNone result (self.old ≡ []) }
    {
        self.keys.pop_first()
    }
}
