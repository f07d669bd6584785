//! Edits of a text, made together, and edits that overlap.

ghost use Rattle.std.specs.Prelude.{◌≡◌, IfOk};

use go_tree::{Span, Text};
use std::alloc::Global;
use std::test::Fail;
use text_edits::{AddFault, Edit, Edits, apply};

fn edit(alloc: Global, start: u32, end: u32, text: &str) -> Result<Edit, Fail>
    ensures { IfOk result (λ e. (e.span.start ≡ start) × (e.span.end ≡ end)) }
{
    let bytes = text.as_bytes().to_vec(alloc)?;
    Ok(Edit {
        span: Span { start, end },
        text: Text::of(bytes),
    })
}

/// The span of the kept edit that a new one overlaps, if it isn't added.
fn overlapped(
    alloc: Global,
    edits: &mut Edits,
    start: u32,
    end: u32,
    text: &str,
) -> Result<Option<Span>, Fail> {
    if start > end {
        return Err(Fail::new("no span"));
    }
    let new = edit(alloc, start, end, text)?;
    match edits.add(new) {
        Ok(()) => Ok(None),
        Err(AddFault::Overlap { kept }) => Ok(Some(kept)),
        Err(AddFault::NoMemory) => Err(Fail::new("no memory")),
    }
}

// The text with edits made that are added in this order.
fn edited(alloc: Global, text: &[u8], rows: &[(u32, u32, &str)]) -> Result<Vec<u8>, Fail> {
    let mut edits = Edits::new(alloc);
    for (start, end, new) in rows {
        if start > end || *end as usize > text.len() {
            return Err(Fail::new("a span outside the text"));
        }
        if edits.add(edit(alloc, *start, *end, new)?).is_err() {
            return Err(Fail::new("a refused edit"));
        }
    }
    Ok(apply(alloc, text, &edits)?)
}

fn makes(alloc: Global, rows: &[(u32, u32, &str)], want: &str) -> Result<bool, Fail> {
    let bytes = edited(alloc, b"abcdef", rows)?;
    Ok(bytes.as_slice() == want.as_bytes())
}

#[test]
fn edits_made_together(rt: HostRuntime) -> Result<(), Fail> {
    let cases: &[(&str, &[(u32, u32, &str)], &str)] = &[
        ("no edit", &[], "abcdef"),
        ("the whole text", &[(0, 6, "new")], "new"),
        ("no new text", &[(1, 5, "")], "af"),
        (
            "insertions at both ends",
            &[(6, 6, "!"), (0, 0, "<")],
            "<abcdef!",
        ),
        ("touching spans", &[(2, 4, "Y"), (0, 2, "X")], "XYef"),
        (
            "insertions where a span starts and ends",
            &[(2, 4, "Y"), (2, 2, "+"), (4, 4, "-")],
            "ab+Y-ef",
        ),
    ];
    for (name, rows, want) in cases {
        if !makes(rt.alloc(), *rows, *want)? {
            return Err(Fail::new(*name));
        }
    }
    Ok(())
}

fn add_in_turn(alloc: Global, edits: &mut Edits) -> Result<(), Fail> {
    let span = Some(Span { start: 2, end: 4 });
    let place = Some(Span { start: 6, end: 6 });
    for (start, end, want, name) in [
        (6, 6, None, "a place"),
        (2, 4, None, "a span"),
        (2, 4, span, "equal spans"),
        (3, 5, span, "a shared byte"),
        (3, 3, span, "a place inside"),
        (5, 7, place, "round a place"),
        (6, 6, place, "equal places"),
        (4, 6, None, "between both"),
    ] {
        if overlapped(alloc, edits, start, end, "x")? != want {
            return Err(Fail::new(name));
        }
    }
    Ok(())
}

#[test]
fn edits_that_overlap(rt: HostRuntime) -> Result<(), Fail> {
    let mut edits = Edits::new(rt.alloc());
    add_in_turn(rt.alloc(), &mut edits)
}
