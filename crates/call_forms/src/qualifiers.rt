//! The names of packages at a use, and before which names of a marked declaration they stand there.

ghost use Rattle.std.specs.Prelude.{◌≡◌, [], ℕ, List, Option, Some, if◌then◌else◌, map, OnOk};
ghost use Rattle.std.specs.Option.{option_map};
ghost use Rattle.go_tree.specs.declared.spans.Span as spans;
ghost use Rattle.run_rules.specs.ImportRules.Removed.{same_span};
ghost use Rattle.call_forms.specs.Qualifiers.{at_span, qualifier_at};

use go_tree::{Name, NoMemory, Span};
use indexmap::IndexMap;
use std::alloc::Global;
use std::marker::Model;

/// Numbers by the spans of names.
#[derive(Drop)]
struct Numbers {
    entries: IndexMap<(u32, u32), usize>,
}

impl Model for Numbers {
    ghost use Rattle.std.specs.Prelude.{List, ℕ, map};
    ghost use Rattle.go_tree.specs.declared.spans.Span.{Span};
    ghost use Rattle.run_rules.specs.ImportRules.Removed.{span_at};

    ghost Value = { List (Span × ℕ) };

    ghost view = { λ a. map (λ e. (span_at e.0.0 e.0.1, e.1)) a.entries.entries };
}

impl Numbers {
    /// No names.
    fn new(alloc: Global) -> Self
        ensures { result ≡ [] }
    {
        Numbers {
            entries: IndexMap::new(alloc),
        }
    }

    /// The number of the name at the span.
    fn at(&self, span: Span) -> Option<usize>
        ensures { result ≡ at_span span self.now }
    {
        self.entries.get(&(span.start, span.end)).copied()
    }

    /// The name at the span has this number from now on.
    fn set(&mut self, span: Span, number: usize) -> Result<(), NoMemory>
        ensures { OnOk result ((q : spans.Span) → at_span q self.new
            ≡ (if same_span q span then Some number else at_span q self.old)) }
    {
        self.entries.insert((span.start, span.end), number)?;
        Ok(())
    }
}

/// The names that packages have at a use of a marked declaration, and the names of the declaration before which they
/// stand there: a name alone gets one, and a name with a package before it has this one in its place (Go specification,
/// Qualified identifiers).
#[derive(Drop)]
pub struct Qualifiers {
    packages: Vec<Name>,
    numbers: Numbers,
}

impl Model for Qualifiers {
    ghost use Rattle.call_forms.specs.Qualifiers.{Told};

    ghost Value = { Told };

    ghost view = { λ a. record { packages = a.packages.items; before = a.numbers } };
}

impl Qualifiers {
    /// The packages with these names, which stand before nothing yet.
    pub fn new(alloc: Global, packages: Vec<Name>) -> Self
        ensures { result ≡ record { packages = packages.items; before = [] } }
    {
        Qualifiers {
            packages,
            numbers: Numbers::new(alloc),
        }
    }

    /// The package with this number stands before the name at the span from now on. An error where memory is refused.
    pub fn put(&mut self, span: Span, number: usize) -> Result<(), NoMemory>
        ensures packages { OnOk result (self.new.packages ≡ self.old.packages) }
        ensures before { OnOk result ((q : spans.Span) → at_span q self.new.before
            ≡ (if same_span q span then Some number else at_span q self.old.before)) }
    {
        self.numbers.set(span, number)?;
        Ok(())
    }

    /// The name of the package that stands before the name at the span.
    pub(crate) fn at(&self, span: Span) -> Option<&Name>
        ensures { option_map (λ n. n.now) result ≡ qualifier_at self.now span }
    {
        match self.numbers.at(span) {
            None => None,
            Some(number) => self.packages.get(number),
        }
    }
}

/// A use of a marked declaration: the names that packages have there, and the span of all that is written.
#[derive(Clone, Copy)]
pub struct There<'a> {
    pub qualifiers: &'a Qualifiers,
    pub span: Span,
}
