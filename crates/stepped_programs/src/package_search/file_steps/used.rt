//! The expression that a use is, by where it stands.

ghost use Rattle.std.specs.Prelude.{◌≡◌, map};
ghost use Rattle.std.specs.Option.{option_map};
ghost use Rattle.go_tree.specs.View.{expr_of};
ghost use Rattle.run_rules.specs.ImportRules.Removed.{same_span as spec_same_span};
ghost use Rattle.member_uses.specs.PossibleUses.Views.{part_of};
ghost use Rattle.stepped_programs.specs.PackageSearch.FileSteps.Used.{first_at, is_named_at as spec_is_named_at};
ghost use Rattle.stepped_programs.specs.PackageSearch.FileSteps.Used.{part_at as spec_part_at};

use go_tree::{Expr, Span};
use member_uses::possible_uses::PartRef;

fn same_span(a: Span, b: Span) -> bool
    ensures { result ≡ spec_same_span a b }
{
    a.start == b.start && a.end == b.end
}

/// Whether a name, or a name behind a dot, stands there.
fn is_named_at(e: &Expr, at: Span) -> bool
    ensures { result ≡ spec_is_named_at at (expr_of e.now) }
{
    match e {
        Expr::Ident { span, .. } => same_span(at, *span),
        Expr::Selector { span, .. } => same_span(at, *span),
        _ => false,
    }
}

/// The part as such an expression.
fn part_at<'a>(part: PartRef<'a>, at: Span) -> Option<&'a Expr>
    ensures { option_map (λ e. expr_of e.now) result ≡ spec_part_at at (part_of part.entry) }
{
    match part {
        PartRef::Expr(e) | PartRef::Key(e) => if is_named_at(e, at) { Some(e) } else { None },
        PartRef::Type(_) | PartRef::Receiver(_) => None,
    }
}

/// The first of the parts that is a name, or a name behind a dot, and stands there.
pub(crate) fn used_expr<'a>(parts: &[PartRef<'a>], at: Span) -> Option<&'a Expr>
    ensures { option_map (λ e. expr_of e.now) result ≡ first_at at (map part_of parts.now) }
{
    for part in parts {
        if let Some(e) = part_at(*part, at) {
            return Some(e);
        }
    }
    None
}
