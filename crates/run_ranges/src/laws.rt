//! Laws of the ranges of a run.

ghost use Rattle.run_ranges.specs.Laws.{EditsFollowTheLog, MadeHaveRoom};

/// The edits of a file as read that the steps of a run make, joined one step after another: a step of another file
/// leaves them, and one of this file joins its own, the last first. Where edits of a text and one of the text that they
/// make lie in their texts, and these are small, there is room for the joined ranges.
pub fn ranges_follow_edits()
    ensures log { EditsFollowTheLog }
    ensures room { MadeHaveRoom }
{}
