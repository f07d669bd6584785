//! Where names stand first in a list.

ghost use Rattle.std.specs.Prelude.{◌≡◌, ◌++◌, ◌∷◌, [], ℕ, List, Some, is_some, IfOk, OnOk, bytes_eq};
ghost use Rattle.std.specs.Prelude.{if◌then◌else◌, length};
ghost use Rattle.name_walks.specs.Around.{place_in};
ghost use Rattle.file_names.specs.Places.{Finds};

use go_tree::NoMemory;
use indexmap::IndexMap;
use std::alloc::Global;
use std::marker::Model;

/// Places by name.
#[derive(Drop)]
pub struct Places {
    entries: IndexMap<Vec<u8>, usize>,
}

impl Model for Places {
    ghost use Rattle.std.specs.Prelude.{List, ℕ, map};

    ghost Value = { List (List ℕ × ℕ) };

    ghost view = { λ a. map (λ e. (e.0.items, e.1)) a.entries.entries };
}

impl Places {
    /// No places.
    pub fn new(alloc: Global) -> Self
        ensures { result ≡ [] }
    {
        Places {
            entries: IndexMap::new(alloc),
        }
    }

    /// The place of the name.
    pub fn find(&self, name: &[u8]) -> Option<usize>
        ensures { result ≡ place_in self.now name.now }
    {
        self.entries.get(name).copied()
    }

    /// The name has this place from now on.
    fn set(&mut self, name: Vec<u8>, place: usize) -> Result<(), NoMemory>
        ensures { OnOk result ((q : List ℕ)
            → place_in self.new q ≡ (if bytes_eq q name.items then Some place else place_in self.old q)) }
    {
        self.entries.insert(name, place)?;
        Ok(())
    }

    /// Whether the name has a place.
    fn has(&self, name: &[u8]) -> bool
        ensures { result ≡ is_some (place_in self.now name.now) }
    {
        self.find(name).is_some()
    }

    /// One more name behind those that are found, of which there are as many as the place says. A name that stands among
    /// them keeps its place. The only error is `NoMemory`.
    pub fn push(&mut self, alloc: Global, name: &[u8], place: usize) -> Result<(), NoMemory>
        ensures { OnOk result ((names : List (List ℕ)) → Finds self.old names → place ≡ length names
            → Finds self.new (names ++ name.now ∷ [])) }
    {
        if self.has(name) {
            return Ok(());
        }
        self.set(copy_of(alloc, name)?, place)?;
        Ok(())
    }
}

/// A copy of a name.
fn copy_of(alloc: Global, name: &[u8]) -> Result<Vec<u8>, NoMemory>
    ensures { IfOk result (λ copy. copy.items ≡ name.now) }
{
    Ok(name.to_vec(alloc)?)
}
