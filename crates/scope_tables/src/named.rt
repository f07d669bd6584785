//! The declarations of one name.

ghost use Rattle.std.specs.Prelude.{◌≡◌, ◌≤◌, ◌<◌, ◌-◌, ℕ, Bool, true, false, [], ◌∷◌};
ghost use Rattle.std.specs.Prelude.{◌++◌, length, map, IfSome, OnOk};
ghost use Rattle.std.specs.List.Sorted.{IsNonDecreasingBy};
ghost use Rattle.scope_tables.specs.declared.named.Held.{Held};
ghost use Rattle.scope_tables.specs.NamedScopes.{extent_of, innermost, Behind, Ended, IsLinked, LeadsBack, Follows};

use go_tree::{NoMemory, Span};
use std::alloc::Global;
use std::marker::Model;

/// A way back over declarations: how many of the first ones may still hold where those behind them, up to the one whose
/// way it is, have ended, the byte before which these have, and how many single ways it is as good as.
#[derive(Clone, Copy, Debug, PartialEq, Eq)]
pub(crate) struct Way {
    first: usize,
    ended: u32,
    ways: usize,
}

/// Where a declaration stands, the bytes from which and before which it holds, how many of the declarations before it
/// may still hold where it has ended, and a longer way back.
#[derive(Clone, Copy, Debug, PartialEq, Eq)]
pub(crate) struct Held {
    declared_at: Span,
    from: u32,
    to: u32,
    before: usize,
    far: Way,
}

/// The declarations of one name, in the order of the source, and whether they begin in that order too, as those of a
/// file that was read do.
#[derive(Drop)]
pub(crate) struct NamedScopes {
    held: Vec<Held>,
    in_order: bool,
}

impl Model for NamedScopes {
    ghost use Rattle.std.specs.Prelude.{List, map};
    ghost use Rattle.scope_tables.specs.NamedScopes.{Extent, extent_of, IsKept};

    ghost Value = { List Extent };

    ghost view = { λ a. map extent_of a.held.items };

    ghost invariant = { λ a. IsKept a.in_order a.held.items };
}

impl NamedScopes {
    /// No declaration.
    pub(crate) fn new(alloc: Global) -> Self
        ensures { result ≡ [] }
    {
        NamedScopes {
            held: Vec::new(alloc),
            in_order: true,
        }
    }

    /// One more declaration, which stands behind the others.
    pub(crate) fn push(&mut self, declared_at: Span, from: u32, to: u32) -> Result<(), NoMemory>
        ensures { OnOk result (self.new
            ≡ self.old ++ record { declared_at = declared_at; from = from; to = to } ∷ []) }
    {
        let before = reach(&self.held, to);
        let far = far_way(&self.held, before, to);
        let in_order = stays_in_order(self.in_order, &self.held, from);
        self.held.push(Held {
            declared_at,
            from,
            to,
            before,
            far,
        })?;
        self.in_order = in_order;
        Ok(())
    }

    /// Where the innermost declaration stands that holds at the place.
    pub(crate) fn innermost(&self, at: u32) -> Option<Span>
        ensures { result ≡ innermost at self.now }
    {
        let first = if self.in_order {
            begun(&self.held, at)
        } else {
            self.held.len()
        };
        search(&self.held, first, at)
    }
}

/// How many of the first declarations may hold where one has ended that stands behind all and ends before `to`: those
/// behind them have ended before it.
fn reach(held: &[Held], to: u32) -> usize
    requires { IsLinked held.now }
    ensures within { result ≤ length held.now }
    ensures ended { Ended to held.now result }
{
    let mut count = held.len();
    while count > 0 && held[count - 1].to <= to {
        count = held[count - 1].before;
    }
    count
}

/// The way back from the last of the first declarations; None where there are none.
fn way_of(held: &[Held], count: usize) -> Option<Way>
    requires linked { IsLinked held.now }
    requires within { count ≤ length held.now }
    ensures { IfSome result (λ way. LeadsBack held.now count way) }
{
    if count == 0 {
        None
    } else {
        Some(held[count - 1].far)
    }
}

/// The way back from a declaration that stands behind all, where those behind the first `before` ones have ended before
/// `to`. It leads over two ways of the same length where these follow one another, so from any declaration few of them
/// lead to any that is to be found; else it leads to `before` alone.
fn far_way(held: &[Held], before: usize, to: u32) -> Way
    requires linked { IsLinked held.now }
    requires within { before ≤ length held.now }
    requires ended { Ended to held.now before }
    ensures within { result.first ≤ length held.now }
    ensures ended { Ended result.ended held.now result.first }
    ensures last { to ≤ result.ended }
{
    let near = Way {
        first: before,
        ended: to,
        ways: 1,
    };
    let Some(next) = way_of(held, before) else {
        return near;
    };
    let Some(last) = way_of(held, next.first) else {
        return near;
    };
    if next.ways != last.ways {
        return near;
    }
    Way {
        first: last.first,
        ended: to.max(next.ended).max(last.ended),
        ways: next.ways.saturating_add(last.ways).saturating_add(1),
    }
}

/// Whether declarations in order are so with one more, which begins to hold at `from`.
fn stays_in_order(in_order: bool, held: &[Held], from: u32) -> bool
    ensures before { result ≡ true → in_order ≡ true }
    ensures last { result ≡ true → Follows held.now from }
{
    match held.last() {
        None => in_order,
        Some(last) => in_order && last.from <= from,
    }
}

/// How many declarations have begun to hold at the place, where they stand in the order of their begins.
fn begun(held: &[Held], at: u32) -> usize
    requires { IsNonDecreasingBy (λ (h : Held). h.from) held.now }
    ensures within { result ≤ length held.now }
    ensures behind { Behind at held.now result }
{
    held.partition_point(|h| h.from <= at)
}

/// The innermost declaration that holds at the place, where none behind the first ones does.
fn search(held: &[Held], first: usize, at: u32) -> Option<Span>
    requires linked { IsLinked held.now }
    requires within { first ≤ length held.now }
    requires behind { Behind at held.now first }
    ensures { result ≡ innermost at (map extent_of held.now) }
{
    let mut count = first;
    while count > 0 {
        let last = held[count - 1];
        if last.far.ended <= at {
            count = last.far.first;
        } else if last.to <= at {
            count = last.before;
        } else if last.from <= at {
            return Some(last.declared_at);
        } else {
            count -= 1;
        }
    }
    None
}
