//! How many steps have an origin.

ghost use Rattle.std.specs.Prelude.{◌≡◌, ◌+◌, ◌<◌, ◌^◌, [], OnOk, if◌then◌else◌};
ghost use Rattle.run_by_steps.specs.StepCounts.Origins.{IsCounted, OriginKey, counted_at, same_key, steps_from};

use go_tree::NoMemory;
use indexmap::IndexMap;
use std::alloc::Global;
use std::marker::Model;

/// How many steps have each origin. A file is known by the numbers of its package and its own, an origin by its offset
/// in the file as read.
#[derive(Drop)]
pub struct OriginCounts {
    entries: IndexMap<(usize, (usize, u32)), u32>,
}

impl Model for OriginCounts {
    ghost use Rattle.run_by_steps.specs.StepCounts.Origins.{Counted};

    ghost Value = { Counted };

    ghost view = { λ a. a.entries.entries };
}

impl OriginCounts {
    /// No steps.
    pub fn new(alloc: Global) -> Self
        ensures { result ≡ [] }
    {
        OriginCounts {
            entries: IndexMap::new(alloc),
        }
    }

    /// The count of the origin, where one is noted.
    fn get(&self, origin: (usize, (usize, u32))) -> Option<u32>
        ensures { result ≡ counted_at origin self.now }
    {
        self.entries.get(&origin).copied()
    }

    /// The origin has this count from now on.
    fn put(&mut self, origin: (usize, (usize, u32)), count: u32) -> Result<(), NoMemory>
        ensures { OnOk result (IsCounted origin count self.old self.new) }
    {
        self.entries.insert(origin, count)?;
        Ok(())
    }

    /// How many steps have the origin. Takes one look-up.
    pub fn of(&self, origin: (usize, (usize, u32))) -> u32
        ensures { result ≡ steps_from origin self.now }
    {
        match self.get(origin) {
            Some(count) => count,
            None => 0,
        }
    }

    /// One step more has the origin. The only error is `NoMemory`.
    pub fn add(&mut self, origin: (usize, (usize, u32))) -> Result<(), NoMemory>
        requires { steps_from origin self.old + 1 < 2 ^ 32 }
        ensures { OnOk result ((q : OriginKey)
            → steps_from q self.new ≡ steps_from q self.old + (if same_key q origin then 1 else 0)) }
    {
        let count = self.of(origin);
        self.put(origin, count + 1)?;
        Ok(())
    }
}
