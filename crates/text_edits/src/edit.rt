//! One edit of a text, and why it can't stand beside others.

use go_tree::{Span, Text};
use std::alloc::AllocFailed;

/// The bytes that are to stand in place of a span of a text.
#[derive(Drop)]
pub struct Edit {
    /// What is replaced; an empty span is a place between two bytes.
    pub span: Span,
    /// What stands there afterwards.
    pub text: Text,
}

/// Why an edit wasn't added.
#[derive(Clone, Copy, Debug, PartialEq, Eq, Drop)]
pub enum AddFault {
    /// Its span overlaps this span of a kept edit.
    Overlap { kept: Span },
    /// Memory was refused.
    NoMemory,
}

impl<T: Drop> From<AllocFailed<T>> for AddFault {
    ghost use Rattle.text_edits.specs.declared.edit.AddFault.TheVariants.{NoMemory};
    ghost use Rattle.std.specs.Prelude.{◌≡◌};

    ghost from_gives = { λ _ e. e ≡ NoMemory };

    fn from(_: AllocFailed<T>) -> Self {
        AddFault::NoMemory
    }
}
