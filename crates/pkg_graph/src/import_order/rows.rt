//! Rows of numbers: a list of numbers for each number.

ghost use Rattle.std.specs.Prelude.{◌≡◌, ◌<◌, [], ◌∷◌, ◌++◌, IfOk, OnOk, replicate, length};
ghost use Rattle.std.specs.Prelude.{slice_set, List, ℕ};
ghost use Rattle.pkg_graph.specs.ImportOrder.Numbers.{row};

use go_tree::NoMemory;
use std::alloc::Global;
use std::marker::Model;

/// A list of numbers for each number from 0 on.
#[derive(Drop)]
pub struct Rows {
    rows: Vec<Vec<usize>>,
}

impl Model for Rows {
    ghost use Rattle.std.specs.Prelude.{List, ℕ, map};

    ghost Value = { List (List ℕ) };

    ghost view = { λ a. map (λ k. k.items) a.rows.items };
}

impl Rows {
    /// So many empty rows.
    pub fn new(alloc: Global, count: usize) -> Result<Self, NoMemory>
        ensures { IfOk result (λ rows. rows ≡ replicate count []) }
    {
        let mut rows = Vec::new(alloc);
        for row in 0..count {
            let _ = row;
            rows.push(Vec::new(alloc))?;
        }
        Ok(Rows { rows })
    }

    /// How many rows.
    pub fn len(&self) -> usize
        ensures { result ≡ length self.now }
    {
        self.rows.len()
    }

    /// The numbers of a row.
    pub fn row(&self, k: usize) -> &[usize]
        requires { k < length self.now }
        ensures { result.now ≡ row self.now k }
    {
        &self.rows[k]
    }

    /// Adds a number to a row.
    pub fn add(&mut self, k: usize, number: usize) -> Result<(), NoMemory>
        requires { k < length self.old }
        ensures { OnOk result (self.new ≡ slice_set self.old k (row self.old k ++ number ∷ [])) }
    {
        self.rows[k].push(number)?;
        Ok(())
    }

    /// Empties a row.
    pub fn take(&mut self, alloc: Global, k: usize) -> Vec<usize>
        requires { k < length self.old }
        ensures taken { result.items ≡ row self.old k }
        ensures rest { self.new ≡ slice_set self.old k [] }
    {
        std::mem::replace(&mut self.rows[k], Vec::new(alloc))
    }
}
