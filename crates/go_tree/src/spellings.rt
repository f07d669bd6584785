//! How tokens are spelled.

ghost use Rattle.std.specs.Prelude.{◌≡◌, ◌≤◌, length, take, IfOk, IsOk};
ghost use Rattle.go_tree.specs.Spellings.{bytes_of};

use crate::limits::NoMemory;
use std::alloc::Global;
use std::marker::Model;

/// The greatest number of bytes of a spelling that stand in the value itself.
pub const INLINE_BYTES: usize = 14;

/// The bytes of a spelling: the first `len` cells, or a list.
pub enum SpellingBytes {
    Inline { len: u8, cells: [u8; INLINE_BYTES] },
    Listed(Box<Vec<u8>>),
}

impl Drop for SpellingBytes {
    fn drop(self) {
        match self {
            SpellingBytes::Inline { len: _, cells: _ } => (),
            SpellingBytes::Listed(_) => (),
        }
    }
}

/// How a token is spelled: its bytes. Up to `INLINE_BYTES` of them stand in the value itself, and more
/// in an allocation, so that most tokens take no memory beyond their list's.
pub struct Spelling {
    bytes: SpellingBytes,
}

impl Drop for Spelling {
    fn drop(self) {
        let Spelling { bytes: _ } = self;
    }
}

impl Model for Spelling {
    ghost use Rattle.std.specs.Prelude.{List, ℕ};
    ghost use Rattle.go_tree.specs.Spellings.{bytes_of};

    ghost Value = { List ℕ };

    ghost view = { λ a. bytes_of a.bytes };
}

impl Spelling {
    /// The spelling of a copy of these bytes. Takes no memory for up to `INLINE_BYTES` of them.
    pub fn copied(alloc: Global, bytes: &[u8]) -> Result<Self, NoMemory>
        ensures copied { IfOk result (λ spelling. spelling ≡ bytes.now) }
        ensures inline { length bytes.now ≤ 14 → IsOk result }
    {
        let bytes = if bytes.len() <= INLINE_BYTES {
            inline(bytes)
        } else {
            SpellingBytes::Listed(Box::new(alloc, bytes.to_vec(alloc)?)?)
        };
        Ok(Spelling { bytes })
    }

    /// Its bytes.
    pub fn items(&self) -> &[u8]
        ensures { result.now ≡ self.now }
    {
        match &self.bytes {
            SpellingBytes::Inline { len, cells } => front(cells, *len as usize),
            SpellingBytes::Listed(list) => list.as_slice(),
        }
    }
}

/// The first `len` cells, or all where there are fewer.
fn front(cells: &[u8], len: usize) -> &[u8]
    ensures { result.now ≡ take len cells.now }
{
    if len < cells.len() {
        &cells[..len]
    } else {
        cells
    }
}

fn inline(bytes: &[u8]) -> SpellingBytes
    requires { length bytes.now ≤ 14 }
    ensures { bytes_of result ≡ bytes.now }
{
    let len = bytes.len();
    let mut cells = [0; INLINE_BYTES];
    cells[..len].copy_from_slice(bytes);
    SpellingBytes::Inline {
        len: len as u8,
        cells,
    }
}
