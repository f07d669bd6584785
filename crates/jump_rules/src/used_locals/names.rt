//! Names that are used.

ghost use Rattle.std.specs.Prelude.{◌≡◌, [], IfOk, OnErr, OnOk};
ghost use Rattle.jump_rules.specs.UsedLocals.Used.{and_name, set_name, used_of};

use go_tree::NoMemory;
use indexmap::IndexMap;
use std::alloc::Global;
use std::marker::Model;

/// Whether each name is used so far; one that isn't there isn't.
#[derive(Drop)]
pub struct UsedNames {
    entries: IndexMap<Vec<u8>, bool>,
}

impl Model for UsedNames {
    ghost use Rattle.std.specs.Prelude.{Bool, List, ℕ, map};

    ghost Value = { List (List ℕ × Bool) };

    ghost view = { λ a. map (λ e. (e.0.items, e.1)) a.entries.entries };
}

/// A copy of a name.
fn copy_of(alloc: Global, name: &[u8]) -> Result<Vec<u8>, NoMemory>
    ensures { IfOk result (λ copy. copy.items ≡ name.now) }
{
    Ok(name.to_vec(alloc)?)
}

impl UsedNames {
    /// No name is used.
    pub fn new(alloc: Global) -> Self
        ensures { result ≡ [] }
    {
        UsedNames {
            entries: IndexMap::new(alloc),
        }
    }

    /// Whether the name is used.
    pub fn has(&self, name: &[u8]) -> bool
        ensures { result ≡ used_of self.now name.now }
    {
        match self.entries.get(name).copied() {
            Some(used) => used,
            None => false,
        }
    }

    /// Whether the name is used is as given from now on.
    pub fn set(&mut self, alloc: Global, name: &[u8], used: bool) -> Result<(), NoMemory>
        ensures set { OnOk result (used_of self.new ≡ set_name name.now used (used_of self.old)) }
        ensures same { OnErr result (self.new ≡ self.old) }
    {
        let key = copy_of(alloc, name)?;
        self.entries.insert(key, used)?;
        Ok(())
    }

    /// The name is used.
    pub fn add(&mut self, alloc: Global, name: &[u8]) -> Result<(), NoMemory>
        ensures { OnOk result (used_of self.new ≡ and_name name.now (used_of self.old)) }
    {
        if self.has(name) {
            return Ok(());
        }
        self.set(alloc, name, true)
    }
}
