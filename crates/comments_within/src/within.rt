//! Whether a comment begins in a span, found by a binary search.

ghost use Rattle.std.specs.Prelude.{◌≡◌, ◌≤◌, length};
ghost use Rattle.std.specs.List.{list_any};
ghost use Rattle.run_rules.specs.ImportRules.Laid.{CommentsAscend};
ghost use Rattle.run_rules.specs.Steps.{lies_in};
ghost use Rattle.comments_within.specs.Begun.{BeginBefore, BeginFrom, begins_before};

use go_tree::{Comment, Span};

/// How many comments begin before the place.
fn first_from(comments: &[Comment], at: u32) -> usize
    requires { CommentsAscend 0 comments.now }
    ensures within { result ≤ length comments.now }
    ensures before { BeginBefore at comments.now result }
    ensures behind { BeginFrom at comments.now result }
{
    comments.partition_point(|comment| comment.span.start < at)
}

/// Whether the first of these comments begins before the place.
fn begins_before(comments: &[Comment], at: u32) -> bool
    ensures { result ≡ begins_before at comments.now }
{
    match comments {
        [comment, ..] => comment.span.start < at,
        [] => false,
    }
}

/// Whether one of a text's comments, which stand in their order, begins in the span (Go specification, Comments).
/// It takes a binary search.
pub fn comment_lies_in(comments: &[Comment], span: Span) -> bool
    requires { CommentsAscend 0 comments.now }
    ensures { result ≡ list_any (lies_in span) comments.now }
{
    let first = first_from(comments, span.start);
    begins_before(&comments[first..], span.end)
}
