//! Sets of marked declarations.

ghost use Rattle.std.specs.Prelude.{◌≡◌, ◌||◌, [], map, IfOk, OnOk};
ghost use Rattle.run_rules.specs.Sites as sites;
ghost use Rattle.run_rules.specs.Sites.{same_mark, is_among_marks};
ghost use Rattle.module_marks.specs.Views.{mark_ref_of};

use file_names::MarkRef;
use go_tree::NoMemory;
use indexmap::IndexSet;
use std::alloc::Global;
use std::marker::Model;

/// Marked declarations, each once.
#[derive(Drop)]
pub struct MarkSet {
    keys: IndexSet<(usize, (usize, (usize, usize)))>,
}

impl Model for MarkSet {
    ghost use Rattle.std.specs.Prelude.{List, map};
    ghost use Rattle.run_rules.specs.Sites.{MarkRef};
    ghost use Rattle.module_marks.specs.Keys.{key_mark};

    ghost Value = { List MarkRef };

    ghost view = { λ a. map key_mark a.keys.keys };
}

impl MarkSet {
    /// No marks.
    fn new(alloc: Global) -> Self
        ensures { result ≡ [] }
    {
        MarkSet {
            keys: IndexSet::new(alloc),
        }
    }

    /// Adds the mark.
    fn add(&mut self, mark: MarkRef) -> Result<(), NoMemory>
        ensures { OnOk result ((q : sites.MarkRef) → is_among_marks self.new q
            ≡ same_mark q (mark_ref_of mark) || is_among_marks self.old q) }
    {
        self.keys
            .insert((mark.package, (mark.file, (mark.decl, mark.item))))?;
        Ok(())
    }

    /// The marks of a list. The only error is `NoMemory`.
    pub fn of(alloc: Global, marks: &[MarkRef]) -> Result<MarkSet, NoMemory>
        ensures { IfOk result (λ set. (q : sites.MarkRef)
            → is_among_marks set q ≡ is_among_marks (map mark_ref_of marks.now) q) }
    {
        let mut set = MarkSet::new(alloc);
        for mark in marks {
            set.add(*mark)?;
        }
        Ok(set)
    }

    /// Whether the declaration is marked. Takes one look-up.
    pub fn has(&self, mark: MarkRef) -> bool
        ensures { result ≡ is_among_marks self.now (mark_ref_of mark) }
    {
        self.keys
            .contains(&(mark.package, (mark.file, (mark.decl, mark.item))))
    }
}
