//! Sets of names, and lists without repetition.

ghost use Rattle.std.specs.Prelude.{◌≡◌, ◌||◌, ◌++◌, ◌∷◌, if◌then◌else◌, not, [], ℕ, List};
ghost use Rattle.std.specs.Prelude.{IfOk, OnOk, length, ◌<◌, ◌^◌, bytes_eq, position};
ghost use Rattle.std.specs.List.{position_or_len};
ghost use Rattle.go_tree.specs.GoWords.Tokens.Pieces.{is_among};
ghost use Rattle.name_walks.specs.EachOnce.{each_once, with_name};

use go_tree::{Name, NoMemory};
use indexmap::IndexSet;
use std::alloc::Global;
use std::marker::Model;

/// Distinct names in the order in which they came.
#[derive(Drop)]
pub struct NameSet {
    keys: IndexSet<Vec<u8>>,
}

impl Model for NameSet {
    ghost use Rattle.std.specs.Prelude.{List, ℕ, map};

    ghost Value = { List (List ℕ) };

    ghost view = { λ a. map (λ k. k.items) a.keys.keys };
}

impl NameSet {
    /// No names.
    pub fn new(alloc: Global) -> Self
        ensures { result ≡ [] }
    {
        NameSet {
            keys: IndexSet::new(alloc),
        }
    }

    /// Adds the name as the last one unless it is there, and says whether it is new.
    pub fn add(&mut self, name: Vec<u8>) -> Result<bool, NoMemory>
        ensures added { OnOk result (self.new ≡ with_name self.old name.items) }
        ensures is_new { IfOk result (λ r. r ≡ not (is_among self.old name.items)) }
    {
        let (_, is_new) = self.keys.insert_full(name)?;
        Ok(is_new)
    }

    /// The name's place among the names, at which it is added as the last one unless it is there.
    pub fn place(&mut self, name: Vec<u8>) -> Result<usize, NoMemory>
        ensures added { OnOk result (self.new ≡ with_name self.old name.items) }
        ensures place { IfOk result (λ k. k ≡ position_or_len (bytes_eq name.items) self.old) }
    {
        let (place, _) = self.keys.insert_full(name)?;
        Ok(place)
    }

    /// The name's place among the names; None where it isn't among them.
    pub fn number(&self, name: &[u8]) -> Option<usize>
        ensures { result ≡ position (bytes_eq name.now) self.now }
    {
        self.keys.get_index_of(name)
    }

    /// Whether the name is there.
    pub fn has(&self, name: &[u8]) -> bool
        ensures { result ≡ is_among self.now name.now }
    {
        self.keys.contains(name)
    }

    /// How many names.
    pub fn len(&self) -> usize
        ensures count { result ≡ length self.now }
        ensures small { result < 2 ^ 63 }
    {
        self.keys.len()
    }
}

pub(crate) fn copy_of(alloc: Global, name: &[u8]) -> Result<Vec<u8>, NoMemory>
    ensures { IfOk result (λ copy. copy.items ≡ name.now) }
{
    Ok(name.to_vec(alloc)?)
}

/// Adds the name where it is wanted.
fn push_if(alloc: Global, list: &mut Vec<Name>, wanted: bool, name: &Name) -> Result<(), NoMemory>
    ensures { OnOk result (list.new.items ≡ (if wanted then list.old.items ++ name.now ∷ [] else list.old.items)) }
{
    if wanted {
        list.push(Name::copied(alloc, name.items())?)?;
    }
    Ok(())
}

/// Adds the names; an error where memory is refused.
pub fn add_all(alloc: Global, set: &mut NameSet, names: &[Name]) -> Result<(), NoMemory>
    ensures { OnOk result ((q : List ℕ) → is_among set.new q ≡ is_among names.now q || is_among set.old q) }
{
    for name in names {
        set.add(copy_of(alloc, name.items())?)?;
    }
    Ok(())
}

/// Each of the names once, where it stands first; an error where memory is refused.
#[tactic(auto, using(crate::proofs::SetLaws::once_step, crate::proofs::SetLaws::once_none, crate::proofs::SetLaws::once_whole))]
pub fn each_once(alloc: Global, names: &[Name]) -> Result<Vec<Name>, NoMemory>
    ensures { IfOk result (λ list. list.items ≡ each_once names.now) }
{
    let mut seen = NameSet::new(alloc);
    let mut list = Vec::new(alloc);
    for name in names {
        let is_new = seen.add(copy_of(alloc, name.items())?)?;
        push_if(alloc, &mut list, is_new, name)?;
    }
    Ok(list)
}
