//! What is told of each file.

ghost use Rattle.std.specs.Prelude.{◌≡◌, ◌<◌, ◌∷◌, ◌++◌, [], IfOk, OnOk, length, replicate};
ghost use Rattle.std.specs.Prelude.{slice_set};
ghost use Rattle.report_order.specs.Rows.{AreItems, IsPut, row};

use go_tree::NoMemory;
use report_lines::ReportItem;
use std::alloc::Global;
use std::marker::Model;

/// What is told of the file with this number.
#[derive(Drop)]
pub struct ReportRow {
    pub file: usize,
    pub item: ReportItem,
}

/// What is told of each file, by the numbers of the files.
#[derive(Drop)]
pub(crate) struct ItemRows {
    rows: Vec<Vec<ReportItem>>,
}

impl Model for ItemRows {
    ghost use Rattle.std.specs.Prelude.{List, map};
    ghost use Rattle.report_lines.specs.declared.lines.ReportItem.{ReportItem};

    ghost Value = { List (List ReportItem) };

    ghost view = { λ a. map (λ k. k.items) a.rows.items };
}

impl ItemRows {
    /// Nothing is told of so many files.
    fn new(alloc: Global, count: usize) -> Result<Self, NoMemory>
        ensures { IfOk result (λ rows. rows ≡ replicate count []) }
    {
        let mut rows = Vec::new(alloc);
        for row in 0..count {
            let _ = row;
            rows.push(Vec::new(alloc))?;
        }
        Ok(ItemRows { rows })
    }

    /// How many files.
    fn len(&self) -> usize
        ensures { result ≡ length self.now }
    {
        self.rows.len()
    }

    /// One item more is told of a file.
    fn add(&mut self, file: usize, item: ReportItem) -> Result<(), NoMemory>
        requires { file < length self.old }
        ensures { OnOk result (self.new ≡ slice_set self.old file (row self.old file ++ item ∷ [])) }
    {
        self.rows[file].push(item)?;
        Ok(())
    }

    /// The same, where there is such a file.
    fn put(&mut self, told: ReportRow) -> Result<(), NoMemory>
        ensures { OnOk result (IsPut told self.old self.new) }
    {
        let ReportRow { file, item } = told;
        if file < self.len() {
            self.add(file, item)?;
        }
        Ok(())
    }

    /// What is told of a file, and nothing from now on.
    pub(crate) fn take(&mut self, alloc: Global, file: usize) -> Vec<ReportItem>
        requires { file < length self.old }
        ensures taken { result.items ≡ row self.old file }
        ensures rest { self.new ≡ slice_set self.old file [] }
    {
        std::mem::replace(&mut self.rows[file], Vec::new(alloc))
    }
}

/// What is told of each of so many files, in the order of the rows.
pub(crate) fn file_items(
    alloc: Global,
    count: usize,
    rows: Vec<ReportRow>,
) -> Result<ItemRows, NoMemory>
    ensures { IfOk result (AreItems count rows.items) }
{
    let mut table = ItemRows::new(alloc, count)?;
    for told in rows {
        table.put(told)?;
    }
    Ok(table)
}
