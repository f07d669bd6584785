//! Sets of spans.

ghost use Rattle.std.specs.Prelude.{◌≡◌, ◌||◌, [], not, IfOk, OnOk};
ghost use Rattle.std.specs.List.{list_any};
ghost use Rattle.go_tree.specs.declared.spans.Span as spans;
ghost use Rattle.run_rules.specs.ImportRules.Removed.{same_span};

use go_tree::{NoMemory, Span};
use indexmap::IndexSet;
use std::alloc::Global;
use std::marker::Model;

/// Spans, each once.
#[derive(Drop)]
pub(crate) struct SpanSet {
    keys: IndexSet<(u32, u32)>,
}

impl Model for SpanSet {
    ghost use Rattle.std.specs.Prelude.{List, map};
    ghost use Rattle.go_tree.specs.declared.spans.Span.{Span};
    ghost use Rattle.run_rules.specs.ImportRules.Removed.{span_at};

    ghost Value = { List Span };

    ghost view = { λ a. map (λ k. span_at k.0 k.1) a.keys.keys };
}

impl SpanSet {
    /// No spans.
    pub(crate) fn new(alloc: Global) -> Self
        ensures { result ≡ [] }
    {
        SpanSet {
            keys: IndexSet::new(alloc),
        }
    }

    /// The span is among them from now on; whether it is new. The only error is `NoMemory`.
    pub(crate) fn add(&mut self, span: Span) -> Result<bool, NoMemory>
        ensures new { IfOk result (λ is_new. is_new ≡ not (list_any (same_span span) self.old)) }
        ensures added { OnOk result ((q : spans.Span)
            → list_any (same_span q) self.new ≡ same_span q span || list_any (same_span q) self.old) }
    {
        let is_new = self.keys.insert((span.start, span.end))?;
        Ok(is_new)
    }
}
