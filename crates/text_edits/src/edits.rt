//! Edits in the order of their places, and the text with all of them made.

ghost use Rattle.std.specs.Prelude.{◌≡◌, ℕ, ◌≤◌, ◌↔◌, [], ◌∷◌, ◌++◌, IfErr, IfOk, IsTrue};
ghost use Rattle.std.specs.Prelude.{OnErr, OnOk, length};
ghost use Rattle.std.specs.List.{Contains, insert};
ghost use Rattle.text_edits.specs.Spans.{IsSpan, Overlaps, Precedes};
ghost use Rattle.text_edits.specs.Order.{InOrder, IsCause, IsFree, IsPlace, spans};
ghost use Rattle.text_edits.specs.Applied.{Within, applied};
ghost use Rattle.text_edits.specs.Keeps.{Keeps};

use crate::edit::{AddFault, Edit};
use go_tree::{NoMemory, Span};
use std::alloc::Global;
use std::marker::Model;

/// Edits of one text whose spans don't overlap, in the order of their places. An empty span stands
/// before another span that starts there.
#[derive(Drop)]
pub struct Edits {
    items: Vec<Edit>,
}

impl Model for Edits {
    ghost use Rattle.std.specs.Prelude.{List};
    ghost use Rattle.text_edits.specs.Order.{InOrder};
    ghost use Rattle.text_edits.specs.declared.edit.Edit.{Edit};

    ghost Value = { List Edit };

    ghost view = { λ a. a.items.items };

    ghost invariant = { λ a. InOrder a.items.items };
}

impl Edits {
    /// No edits. Takes no memory.
    pub fn new(alloc: Global) -> Edits
        ensures { result ≡ [] }
    {
        Edits {
            items: Vec::new(alloc),
        }
    }

    /// Adds an edit at its place.
    ///
    /// `Overlap` comes exactly where its span shares a byte with a kept one, one of the two is empty
    /// and lies strictly inside the other, or both are empty at one offset. After an error the edits
    /// are as before. Linear in the number of edits.
    pub fn add(&mut self, e: Edit) -> Result<(), AddFault>
        requires { IsSpan e.span }
        ensures added { OnOk result ((k : ℕ) × (k ≤ length self.old) × (self.new ≡ insert self.old k e)) }
        ensures ordered { InOrder self.new }
        ensures free { OnOk result (IsFree e.span self.old) }
        ensures within { (size : ℕ) → e.span.end ≤ size → Within size self.old → Within size self.new }
        ensures cause { IfErr result (λ fault. IsCause fault e.span self.old) }
        ensures same { OnErr result (self.new ≡ self.old) }
    {
        let place = match place_for(&self.items, e.span) {
            Ok(place) => place,
            Err(kept) => return Err(AddFault::Overlap { kept }),
        };
        self.items.insert(place, e)?;
        Ok(())
    }

    /// Adds an edit that stands behind all others; an error where memory is refused, and the edits
    /// are then as before. Takes constant time, but for the growth of the list.
    pub fn push(&mut self, e: Edit) -> Result<(), NoMemory>
        requires { InOrder (self.old ++ e ∷ []) }
        ensures added { OnOk result (self.new ≡ self.old ++ e ∷ []) }
        ensures same { OnErr result (self.new ≡ self.old) }
    {
        self.items.push(e)?;
        Ok(())
    }

    /// The edits in the order of their places.
    pub fn items(&self) -> &[Edit]
        ensures { result.now ≡ self.now }
    {
        &self.items
    }
}

/// The text with each span replaced. Linear in the text and the edits.
pub fn apply(alloc: Global, text: &[u8], edits: &Edits) -> Result<Vec<u8>, NoMemory>
    requires { Within (length text.now) edits.now }
    ensures applied { IfOk result (λ new. new.items ≡ applied text.now edits.now) }
    ensures keeps { IfOk result (λ new. Keeps text.now new.items (spans edits.now)) }
{
    let mut new = Vec::new(alloc);
    let mut from = 0;
    for edit in &edits.items {
        new.extend_from_slice(&text[from..edit.span.start as usize])?;
        new.extend_from_slice(edit.text.items())?;
        from = edit.span.end as usize;
    }
    new.extend_from_slice(&text[from..])?;
    Ok(new)
}

// The index at which an edit of the span is to stand, or the first kept span that overlaps it.
fn place_for(kept: &[Edit], span: Span) -> Result<usize, Span>
    requires ordered { InOrder kept.now }
    requires span { IsSpan span }
    ensures place { IfOk result (λ k. IsPlace k span kept.now) }
    ensures overlap { IfErr result (λ s. Overlaps s span × Contains (spans kept.now) s) }
{
    for (i, edit) in kept.iter().enumerate() {
        if !precedes(edit.span, span) {
            return if precedes(span, edit.span) {
                Ok(i)
            } else {
                Err(edit.span)
            };
        }
    }
    Ok(kept.len())
}

fn precedes(a: Span, b: Span) -> bool
    ensures { IsTrue result ↔ Precedes a b }
{
    a.end <= b.start && a.start < b.end
}
