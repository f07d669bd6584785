//! A range that is replaced, and how far a walk over ranges has come.

ghost use Rattle.std.specs.Prelude.{◌≡◌, ◌+◌, ◌-◌, ◌≤◌, ◌<◌, ◌^◌};
ghost use Rattle.run_ranges.specs.Walks.{begins, joint, met};

/// What is replaced of the text of a file as read, from `start` up to `end`, and how many bytes stand there now.
#[derive(Clone, Copy, Debug)]
pub struct ChangedRange {
    pub start: u32,
    pub end: u32,
    pub length: u32,
}

/// How far ranges are looked at: the byte `from` of the file as read stands at the byte `at` of the text as it is. If a
/// range was met that is joined: where the joined one starts, and how many bytes stay before the edit.
#[derive(Clone, Copy, Debug)]
pub(crate) struct Walk {
    pub from: u32,
    pub at: u32,
    pub start: Option<u32>,
    pub before: u32,
}

/// Where the bytes of a range begin now.
pub(crate) fn begins(walk: Walk, range: ChangedRange) -> u32
    requires order { walk.from ≤ range.start }
    requires small { walk.at + (range.start - walk.from) < 2 ^ 32 }
    ensures { result ≡ begins walk range }
{
    walk.at + (range.start - walk.from)
}

/// The walk behind a range that is joined.
pub(crate) fn met(walk: Walk, next: ChangedRange, range: ChangedRange) -> Walk
    requires order { walk.from ≤ range.start }
    requires small { walk.at + (range.start - walk.from) + range.length < 2 ^ 32 }
    ensures { result ≡ met next walk range }
{
    let first = begins(walk, range);
    let from = range.end;
    let at = first + range.length;
    match walk.start {
        Some(start) => Walk {
            from,
            at,
            start: Some(start),
            before: walk.before,
        },
        None if next.start < first => Walk {
            from,
            at,
            start: Some(walk.from + next.start.saturating_sub(walk.at)),
            before: 0,
        },
        None => Walk {
            from,
            at,
            start: Some(range.start),
            before: next.start - first,
        },
    }
}

/// The joined range, where no other is joined.
pub(crate) fn joint(walk: Walk, next: ChangedRange) -> ChangedRange
    requires order { next.start ≤ next.end }
    requires start { walk.from + (next.end - walk.at) < 2 ^ 32 }
    requires length { walk.before + (next.length + (walk.at - next.end)) < 2 ^ 32 }
    ensures { result ≡ joint next walk }
{
    let end = walk.from + next.end.saturating_sub(walk.at);
    let length = walk.before + (next.length + walk.at.saturating_sub(next.end));
    match walk.start {
        Some(start) => ChangedRange { start, end, length },
        None => ChangedRange {
            start: walk.from + next.start.saturating_sub(walk.at),
            end,
            length,
        },
    }
}
