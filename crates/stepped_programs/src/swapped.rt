//! The origins of a declaration's parts, where a use in it becomes a name.

ghost use Rattle.std.specs.Prelude.{◌≡◌, ◌+◌, ◌++◌, IfOk, OnOk, Some, drop, map, slice_get};
ghost use Rattle.go_tree.specs.View.{expr_of};
ghost use Rattle.go_tree.specs.FileView.{decl_of};
ghost use Rattle.run_rules.specs.Sites.{an_expr};
ghost use Rattle.member_uses.specs.PossibleUses.Parts.{parts_of};
ghost use Rattle.member_uses.specs.PossibleUses.Views.{part_of};
ghost use Rattle.programs.specs.OriginsOfUses.Origins.{named_span};
ghost use Rattle.stepped_programs.specs.SwappedOrigins.{dots_at, from_use, is_name_at, names_before_dot};
ghost use Rattle.stepped_programs.specs.SwappedOrigins.{parts_before, swapped, swapped_at};

use go_tree::{Decl, Expr, NoMemory, Span};
use member_uses::possible_uses::{PartRef, decl_parts};
use std::alloc::Global;

/// The span of a name, or of a name behind a dot.
fn name_span(e: &Expr) -> Option<Span>
    ensures { result ≡ named_span (an_expr (expr_of e.now)) }
{
    match e {
        Expr::Ident { span, .. } => Some(*span),
        Expr::Selector { span, .. } => Some(*span),
        _ => None,
    }
}

/// The span of a part that is such a name.
fn part_span(part: PartRef) -> Option<Span>
    ensures { result ≡ named_span (part_of part.entry).part }
{
    match part {
        PartRef::Expr(e) | PartRef::Key(e) => name_span(e),
        PartRef::Type(_) | PartRef::Receiver(_) => None,
    }
}

/// Whether it stands there.
fn is_name_at(part: PartRef, at: Span) -> bool
    ensures { result ≡ is_name_at at (part_of part.entry) }
{
    match part_span(part) {
        Some(span) => at.start == span.start && at.end == span.end,
        None => false,
    }
}

/// How many parts stand before the first that is a name there.
fn parts_before(parts: &[PartRef], at: Span) -> usize
    ensures { result ≡ parts_before at (map part_of parts.now) }
{
    for (number, part) in parts.iter().enumerate() {
        if is_name_at(*part, at) {
            return number;
        }
    }
    parts.len()
}

/// How many names stand before the dot of an expression, and are parts.
fn dots_in(e: &Expr) -> usize
    ensures { result ≡ names_before_dot (an_expr (expr_of e.now)) }
{
    match e {
        Expr::Selector { .. } => 1,
        _ => 0,
    }
}

/// The same of a part.
fn names_before_dot(part: PartRef) -> usize
    ensures { result ≡ names_before_dot (part_of part.entry).part }
{
    match part {
        PartRef::Expr(e) | PartRef::Key(e) => dots_in(e),
        PartRef::Type(_) | PartRef::Receiver(_) => 0,
    }
}

/// The same of the part with this number.
fn dots_at(parts: &[PartRef], number: usize) -> usize
    ensures { result ≡ dots_at number (map part_of parts.now) }
{
    match parts.get(number) {
        Some(part) => names_before_dot(*part),
        None => 0,
    }
}

/// Adds the origins of the parts of a name that comes from there.
fn add_name(spans: &mut Vec<Span>, origin: Span, qualified: bool) -> Result<(), NoMemory>
    ensures { OnOk result (spans.new.items ≡ spans.old.items ++ from_use qualified (Some origin)) }
{
    spans.push(origin)?;
    if !qualified {
        return Ok(());
    }
    spans.push(origin)?;
    Ok(())
}

/// Adds those of a name that comes from where the part with this number does, and of the parts behind that.
fn add_rest(
    spans: &mut Vec<Span>,
    origins: &[Span],
    number: usize,
    qualified: bool,
) -> Result<(), NoMemory>
    ensures { OnOk result (spans.new.items ≡ spans.old.items
        ++ (from_use qualified (slice_get origins.now number) ++ drop (number + 1) origins.now)) }
{
    let Some(origin) = origins.get(number) else {
        return Ok(());
    };
    add_name(spans, *origin, qualified)?;
    spans.extend_from_slice(&origins[number + 1..])?;
    Ok(())
}

/// The origins, where the part with this number and so many before it give way to a name.
fn swapped_at(
    alloc: Global,
    origins: &[Span],
    number: usize,
    dots: usize,
    qualified: bool,
) -> Result<Vec<Span>, NoMemory>
    ensures { IfOk result (λ os. os.items ≡ swapped_at qualified number dots origins.now) }
{
    let front = number.saturating_sub(dots).min(origins.len());
    let mut spans = origins[..front].to_vec(alloc)?;
    add_rest(&mut spans, origins, number, qualified)?;
    Ok(spans)
}

/// The origins of the parts of a declaration, once the use that stands there became a name, qualified or not: the parts
/// of the new name come from where the use did, and the others from where they did. An error where memory is refused.
/// Linear in the declaration.
pub(crate) fn swapped_origins(
    alloc: Global,
    decl: &Decl,
    origins: &[Span],
    at: Span,
    qualified: bool,
) -> Result<Vec<Span>, NoMemory>
    ensures { IfOk result (λ os. os.items ≡ swapped qualified at (parts_of (decl_of decl.now)) origins.now) }
{
    let parts = decl_parts(alloc, decl)?;
    let number = parts_before(&parts, at);
    let dots = dots_at(&parts, number);
    swapped_at(alloc, origins, number, dots, qualified)
}
