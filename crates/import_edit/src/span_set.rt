//! Sets of spans.

ghost use Rattle.std.specs.Prelude.{◌≡◌, ◌||◌, [], IfOk, OnOk};
ghost use Rattle.std.specs.List.{list_any};
ghost use Rattle.go_tree.specs.declared.spans.Span.{Span};
ghost use Rattle.run_rules.specs.ImportRules.Removed.{same_span};

use go_tree::{NoMemory, Span};
use indexmap::IndexSet;
use std::alloc::Global;
use std::marker::Model;

/// Spans, each once, by their starts and ends.
#[derive(Drop)]
pub(crate) struct SpanSet {
    keys: IndexSet<(u32, u32)>,
}

impl Model for SpanSet {
    ghost use Rattle.std.specs.Prelude.{List, map};
    ghost use Rattle.go_tree.specs.declared.spans.Span.{Span};
    ghost use Rattle.run_rules.specs.ImportRules.Removed.{span_at};

    ghost Value = { List Span };

    ghost view = { λ a. map (λ k. span_at k.0 k.1) a.keys.keys };
}

impl SpanSet {
    /// No spans.
    fn new(alloc: Global) -> SpanSet
        ensures { result ≡ [] }
    {
        SpanSet {
            keys: IndexSet::new(alloc),
        }
    }

    /// Adds the span.
    fn add(&mut self, span: Span) -> Result<(), NoMemory>
        ensures { OnOk result ((q : Span) → list_any (same_span q) self.new
            ≡ same_span q span || list_any (same_span q) self.old) }
    {
        self.keys.insert((span.start, span.end))?;
        Ok(())
    }

    /// The spans of a list.
    pub(crate) fn of(alloc: Global, spans: &[Span]) -> Result<SpanSet, NoMemory>
        ensures { IfOk result (λ set. (q : Span) → list_any (same_span q) set ≡ list_any (same_span q) spans.now) }
    {
        let mut set = SpanSet::new(alloc);
        for span in spans {
            set.add(*span)?;
        }
        Ok(set)
    }

    /// Whether the span is there.
    pub(crate) fn has(&self, span: Span) -> bool
        ensures { result ≡ list_any (same_span span) self.now }
    {
        self.keys.contains(&(span.start, span.end))
    }
}
