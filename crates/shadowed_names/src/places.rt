//! Where a use stands.

use member_uses::FileScopes;

/// What names mean in the file of a use, and a byte at which its table answers what they mean at the use.
#[derive(Clone, Copy)]
pub struct UsePlace<'a> {
    pub file: FileScopes<'a>,
    pub at: u32,
}
