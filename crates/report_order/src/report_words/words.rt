//! What is told behind a place.

ghost use Rattle.std.specs.Prelude.{◌≡◌, ◌++◌, IfOk, OnOk};
ghost use Rattle.run_rules.specs.FormTrees.{ConstForm};
ghost use Rattle.run_rules.specs.Marks.{full_name};
ghost use Rattle.run_rules.specs.Report.{obstacle_text, reason_text};
ghost use Rattle.constant_forms.specs.Views.{obstacle_of};
ghost use Rattle.report_order.specs.ReportWords.Words.{bad_text, inlined_text, kept_text};

use constant_forms::Obstacle;
use directive_scan::BadReason;
use go_tree::{NoMemory, Text};
use std::alloc::Global;

/// Adds the full name of a declaration: the import path of its package, a dot and its name.
fn push_full_name(out: &mut Vec<u8>, home: &[u8], name: &[u8]) -> Result<(), NoMemory>
    ensures { OnOk result (out.new.items ≡ out.old.items ++ full_name home.now name.now) }
{
    out.extend_from_slice(home)?;
    out.extend_from_slice(b".")?;
    out.extend_from_slice(name)?;
    Ok(())
}

/// Adds two pieces.
fn push_both(out: &mut Vec<u8>, first: &[u8], second: &[u8]) -> Result<(), NoMemory>
    ensures { OnOk result (out.new.items ≡ out.old.items ++ (first.now ++ second.now)) }
{
    out.extend_from_slice(first)?;
    out.extend_from_slice(second)?;
    Ok(())
}

/// Adds the words for an obstacle.
fn push_obstacle(out: &mut Vec<u8>, obstacle: &Obstacle) -> Result<(), NoMemory>
    ensures { OnOk result (out.new.items ≡ out.old.items ++ obstacle_text (obstacle_of obstacle.now)) }
{
    match obstacle {
        Obstacle::NotAccessible(name) => push_both(out, b"not accessible: ", name.items()),
        Obstacle::Internal(path) => push_both(out, b"internal package: ", path.items()),
        Obstacle::Shadowed(name) => push_both(out, b"shadowed: ", name.items()),
        Obstacle::Recursive => out.extend_from_slice(b"recursive"),
        Obstacle::CommentInside => out.extend_from_slice(b"comment inside"),
        Obstacle::Spread => out.extend_from_slice(b"spread arguments"),
        Obstacle::Repeated => out.extend_from_slice(b"repeated expression"),
    }
}

/// Adds the words for a mark that means nothing.
fn push_reason(out: &mut Vec<u8>, reason: BadReason) -> Result<(), NoMemory>
    ensures { OnOk result (out.new.items ≡ out.old.items ++ reason_text reason) }
{
    match reason {
        BadReason::NotNamedConstant => {
            out.extend_from_slice(b"constant is not another named constant")
        }
        BadReason::NotAlias => out.extend_from_slice(b"type is not an alias"),
        BadReason::NothingMarked => out.extend_from_slice(b"nothing is marked"),
    }
}

/// What is told of a use that was replaced of a constant, by the import path of its package and its name. An error
/// where memory is refused.
pub fn inlined_text(alloc: Global, home: &[u8], name: &[u8]) -> Result<Text, NoMemory>
    ensures { IfOk result (λ t. t ≡ inlined_text home.now name.now ConstForm) }
{
    let mut out = Vec::new(alloc);
    out.extend_from_slice(b": inlined ")?;
    push_full_name(&mut out, home, name)?;
    out.extend_from_slice(b" as const")?;
    Ok(Text::of(out))
}

/// What is told of a use that is kept of a declaration, by the import path of its package and its name, and what keeps
/// it. An error where memory is refused.
pub fn kept_text(
    alloc: Global,
    home: &[u8],
    name: &[u8],
    obstacle: &Obstacle,
) -> Result<Text, NoMemory>
    ensures { IfOk result (λ t. t ≡ kept_text home.now name.now (obstacle_of obstacle.now)) }
{
    let mut out = Vec::new(alloc);
    out.extend_from_slice(b": kept ")?;
    push_full_name(&mut out, home, name)?;
    out.extend_from_slice(b": ")?;
    push_obstacle(&mut out, obstacle)?;
    Ok(Text::of(out))
}

/// What is told of a mark that means nothing. An error where memory is refused.
pub fn bad_text(alloc: Global, reason: BadReason) -> Result<Text, NoMemory>
    ensures { IfOk result (λ t. t ≡ bad_text reason) }
{
    let mut out = Vec::new(alloc);
    out.extend_from_slice(b": bad mark: ")?;
    push_reason(&mut out, reason)?;
    Ok(Text::of(out))
}
