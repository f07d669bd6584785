//! Names that are declared around a place.

ghost use Rattle.std.specs.Prelude.{◌≡◌, ◌&&◌, ◌++◌, ◌∷◌, [], ℕ, List, Some, OnOk, OnErr};
ghost use Rattle.std.specs.Prelude.{bytes_eq, if◌then◌else◌, length, nat_lt, slice_index_or, take};
ghost use Rattle.go_tree.specs.GoWords.Tokens.Pieces.{is_among};
ghost use Rattle.name_walks.specs.Around.{place_in};

use crate::sets::copy_of;
use go_tree::{Name, NoMemory};
use indexmap::IndexMap;
use std::alloc::Global;
use std::marker::Model;

/// Places by name.
#[derive(Drop)]
struct Places {
    places: IndexMap<Vec<u8>, usize>,
}

impl Model for Places {
    ghost use Rattle.std.specs.Prelude.{List, ℕ, map};

    ghost Value = { List (List ℕ × ℕ) };

    ghost view = { λ a. map (λ e. (e.0.items, e.1)) a.places.entries };
}

impl Places {
    /// No places.
    fn new(alloc: Global) -> Self
        ensures { result ≡ [] }
    {
        Places {
            places: IndexMap::new(alloc),
        }
    }

    /// The place of the name.
    fn of(&self, name: &[u8]) -> Option<usize>
        ensures { result ≡ place_in self.now name.now }
    {
        self.places.get(name).copied()
    }

    /// The name has this place from now on.
    fn set(&mut self, name: Vec<u8>, place: usize) -> Result<(), NoMemory>
        ensures set { OnOk result ((q : List ℕ)
            → place_in self.new q ≡ (if bytes_eq q name.items then Some place else place_in self.old q)) }
        ensures same { OnErr result (self.new ≡ self.old) }
    {
        self.places.insert(name, place)?;
        Ok(())
    }
}

/// The names that are declared around a place, the innermost last, and at which place among them each stands first.
#[derive(Drop)]
pub(crate) struct NamesAround {
    alloc: Global,
    names: Vec<Name>,
    places: Places,
}

impl Model for NamesAround {
    ghost use Rattle.std.specs.Prelude.{List, ℕ};
    ghost use Rattle.name_walks.specs.Around.{KnowsPlaces};

    ghost Value = { List (List ℕ) };

    ghost view = { λ a. a.names.items };

    ghost invariant = { λ a. KnowsPlaces a.names.items a.places };
}

impl NamesAround {
    /// No names.
    pub(crate) fn new(alloc: Global) -> Self
        ensures { result ≡ [] }
    {
        NamesAround {
            alloc,
            names: Vec::new(alloc),
            places: Places::new(alloc),
        }
    }

    /// How many names.
    pub(crate) fn len(&self) -> usize
        ensures { result ≡ length self.now }
    {
        self.names.len()
    }

    /// Whether the name is there.
    pub(crate) fn has(&self, name: &Name) -> bool
        ensures { result ≡ is_among self.now name.now }
    {
        match self.places.of(name.items()) {
            None => false,
            Some(place) => stands_at(&self.names, place, name),
        }
    }

    /// One more name, the innermost.
    pub(crate) fn push(&mut self, name: &Name) -> Result<(), NoMemory>
        ensures { OnOk result (self.new ≡ self.old ++ name.now ∷ []) }
    {
        let copy = Name::copied(self.alloc, name.items())?;
        if self.has(name) {
            self.names.push(copy)?;
            return Ok(());
        }
        let place = self.names.len();
        self.places.set(copy_of(self.alloc, name.items())?, place)?;
        self.names.push(copy)?;
        Ok(())
    }

    /// The first names alone.
    pub(crate) fn truncate(&mut self, count: usize)
        ensures { self.new ≡ take count self.old }
    {
        self.names.truncate(count);
    }
}

/// Whether the name stands at the place.
fn stands_at(names: &[Name], place: usize, name: &Name) -> bool
    ensures { result ≡ (nat_lt place (length names.now) && bytes_eq (slice_index_or names.now place []) name.now) }
{
    place < names.len() && names[place].items() == name.items()
}
