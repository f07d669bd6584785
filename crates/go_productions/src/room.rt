//! What all functions of the parser hand on: the allocator, and the room for copies of types.

use go_tree::NoMemory;
use std::alloc::{AllocError, Global};
use std::cell::Cell;

/// The most nodes that copies of types may have in a whole file.
const MOST_COPIED: usize = 16_777_216;

/// The bytes of a name that count as a node more.
const NAME_PIECE: usize = 32;

/// The allocator, and how many nodes the copies of types may still have. Several names over one type have a copy of
/// it each, so nested structs of two names would double at each level.
#[derive(Drop)]
pub struct Room {
    pub alloc: Global,
    left: Cell<usize>,
    copying: Cell<bool>,
}

impl Room {
    /// The room for one file.
    pub fn new(alloc: Global) -> Room {
        Room {
            alloc,
            left: Cell::new(MOST_COPIED),
            copying: Cell::new(false),
        }
    }

    /// Counts a node of a copy, with the length of its name. Nodes that are read for the first time are free.
    pub(crate) fn count(&self, name: usize) -> Result<(), NoMemory> {
        if !self.copying.get() {
            return Ok(());
        }
        let nodes = (name / NAME_PIECE).saturating_add(1);
        match self.left.get().checked_sub(nodes) {
            None => Err(AllocError),
            Some(left) => {
                self.left.set(left);
                Ok(())
            }
        }
    }

    /// Whether what is read is a copy of what was read already.
    pub(crate) fn is_copying(&self) -> bool {
        self.copying.get()
    }

    pub(crate) fn set_copying(&self, copying: bool) {
        self.copying.set(copying);
    }
}
