//! Cursors into the tokens and the comments of a text, so that a walk reads each once.

ghost use Rattle.std.specs.Prelude.{◌≡◌, ◌≤◌, length};
ghost use Rattle.run_rules.specs.ImportRules.Laid.{CommentsAscend};
ghost use Rattle.run_rules.specs.ImportRules.Removed.{comment_within, through_semicolon};
ghost use Rattle.import_edit.specs.Cursors.{CommentsServe, TokensServe, comments_before, starts_before, tokens_before};

use crate::semicolons::through_semicolon;
use go_tree::{Comment, Span, Token};

fn tokens_before(tokens: &[Token], at: u32) -> usize
    ensures count { result ≡ tokens_before at tokens.now }
    ensures within { result ≤ length tokens.now }
{
    for (i, token) in tokens.iter().enumerate() {
        if at <= token.span.start {
            return i;
        }
    }
    tokens.len()
}

fn comments_before(comments: &[Comment], at: u32) -> usize
    ensures count { result ≡ comments_before at comments.now }
    ensures within { result ≤ length comments.now }
{
    for (i, comment) in comments.iter().enumerate() {
        if at <= comment.span.start {
            return i;
        }
    }
    comments.len()
}

fn starts_before(comments: &[Comment], at: u32) -> bool
    ensures { result ≡ starts_before comments.now at }
{
    match comments {
        [comment, ..] => comment.span.start < at,
        [] => false,
    }
}

/// The end of the semicolon that is the first token from an offset on, else the offset. The cursor goes on to that
/// token.
pub(crate) fn next_semicolon(tokens: &[Token], cursor: &mut usize, at: u32) -> u32
    requires { TokensServe tokens.now cursor.old at }
    ensures end { result ≡ through_semicolon tokens.now at }
    ensures serve { TokensServe tokens.now cursor.new at }
{
    let passed = tokens_before(&tokens[*cursor..], at);
    *cursor += passed;
    through_semicolon(&tokens[*cursor..], at)
}

/// Whether a comment starts in the span. The cursor goes on to the first one from its start on.
pub(crate) fn next_comment_within(comments: &[Comment], cursor: &mut usize, span: Span) -> bool
    requires ascend { CommentsAscend 0 comments.now }
    requires serve { CommentsServe comments.now cursor.old span.start }
    ensures is { result ≡ comment_within comments.now span }
    ensures serve { CommentsServe comments.now cursor.new span.start }
{
    let passed = comments_before(&comments[*cursor..], span.start);
    *cursor += passed;
    starts_before(&comments[*cursor..], span.end)
}
