//! Places one after another in a text.

ghost use Rattle.std.specs.Prelude.{◌≡◌, ◌+◌, ◌≤◌, length};
ghost use Rattle.report_lines.specs.Lines.{IsPlace};

use go_tree::{MAX_FILE_BYTES, Place};

/// Where the byte at `to` stands, or the end of the text, where the one at `from` stands at this place.
#[tactic(auto, using(text_places::proofs::LineLemmas::place_lemmas))]
pub(crate) fn place_after(text: &[u8], from: u32, place: Place, to: u32) -> Place
    requires small { length text.now ≤ MAX_FILE_BYTES }
    requires order { from ≤ to }
    requires within { to ≤ length text.now }
    requires known { IsPlace text.now from place }
    ensures { IsPlace text.now to result }
{
    let mut line = place.line;
    let mut col = place.col;
    for at in from..to {
        if text[at as usize] == b'\n' {
            line += 1;
            col = 1;
        } else {
            col += 1;
        }
    }
    Place { line, col }
}
