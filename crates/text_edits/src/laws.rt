//! Laws of edits, for the runs that make them.

ghost use Rattle.text_edits.specs.InTurn.{TurnsAgree};
ghost use Rattle.text_edits.specs.Joined.{JoinedAgree, JoinedApart, JoinedAscend, JoinedCovers, JoinedIsLeast};
ghost use Rattle.text_edits.specs.Joined.{JoinedKeeps, JoinedStands};
ghost use Rattle.text_edits.specs.Places.{BytesStay};

/// Each byte of the old text that no edit replaces stands in the new one, moved by the edits before it.
#[tactic(auto, using(crate::proofs::Stays::bytes_stay))]
pub fn bytes_stay()
    ensures { BytesStay }
{}

/// Edits made one after another, whichever comes first, make what they make together, where those
/// that stand later in the text move with it.
#[tactic(auto, using(crate::proofs::Turns::turns_agree))]
pub fn turns_agree()
    ensures { TurnsAgree }
{}

/// An edit of the text that earlier edits made is, joined with those that it touches, an edit of the
/// text that was first: together with the rest of them it makes the same text, which so keeps the
/// first one but for the joined ranges.
#[tactic(auto, using(crate::proofs::Joins::joined_agree, crate::proofs::Joins::joined_ascend, crate::proofs::Joins::joined_keeps))]
pub fn edits_join()
    ensures agree { JoinedAgree }
    ensures ascend { JoinedAscend }
    ensures keeps { JoinedKeeps }
{}

/// The span of the joined edit is the least one of the first text that covers all bytes of the
/// edit's range that stood there and each earlier range that it touches. Where there is neither, it
/// is empty and stands between the same bytes. No two ranges touch.
pub fn ranges_join()
    ensures covers { JoinedCovers }
    ensures least { JoinedIsLeast }
    ensures stands { JoinedStands }
    ensures apart { JoinedApart }
{}
