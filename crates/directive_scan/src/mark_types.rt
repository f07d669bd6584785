//! Marks: which declarations are marked, and which marks mean nothing.

ghost use Rattle.std.specs.Prelude.{◌≡◌};

use go_tree::{Name, Span};
use std::marker::Model;

/// What is marked.
#[derive(Clone, Copy, Debug, PartialEq, Eq)]
pub enum MarkKind {
    Function,
    Method,
    Constant,
    Alias,
}

/// A marked function, method, constant or alias: where its name is declared, and the name.
#[derive(Drop)]
pub struct Mark {
    pub decl: Span,
    pub name: Name,
    pub kind: MarkKind,
}

/// Why a mark means nothing.
#[derive(Clone, Copy, Debug, PartialEq, Eq)]
pub enum BadReason {
    /// The constant has a type, or no expression of its own that names a constant.
    NotNamedConstant,
    /// The type is a defined type.
    NotAlias,
    /// No function, constant or type follows.
    NothingMarked,
}

/// A mark that means nothing, with the offset at which it is reported.
#[derive(Clone, Copy, Debug, PartialEq, Eq)]
pub struct BadMark {
    pub at: u32,
    pub reason: BadReason,
}

/// What a mark makes of a declared name.
#[derive(Clone, Copy, Debug, PartialEq, Eq)]
pub enum Verdict {
    Good(MarkKind),
    Bad(BadReason),
}

/// The marks of a file: those that hold, and those that mean nothing, each by place.
#[derive(Drop)]
pub struct Marks {
    good: Vec<Mark>,
    bad: Vec<BadMark>,
}

impl Model for Marks {
    ghost use Rattle.directive_scan.specs.Marked.{Found};

    ghost Value = { Found };

    ghost view = { λ a. record { good = a.good.items; bad = a.bad.items } };
}

impl Marks {
    pub(crate) fn of(good: Vec<Mark>, bad: Vec<BadMark>) -> Self
        ensures { result ≡ record { good = good.items; bad = bad.items } }
    {
        Marks { good, bad }
    }

    /// The good marks, by place.
    pub fn good(&self) -> &[Mark]
        ensures { result.now ≡ self.now.good }
    {
        &self.good
    }

    /// The bad marks, by place.
    pub fn bad(&self) -> &[BadMark]
        ensures { result.now ≡ self.now.bad }
    {
        &self.bad
    }
}
