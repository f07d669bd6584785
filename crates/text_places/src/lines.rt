//! Lines and columns.

ghost use Rattle.std.specs.Prelude.{◌≡◌, ◌+◌, ◌≤◌, length, take};
ghost use Rattle.text_places.specs.Lines.{lines_before, column_after};

use go_tree::{MAX_FILE_BYTES, Place};

/// Where the byte at `offset` is, or the end of the text: line and column from 1, the column in
/// bytes. Only the byte 10 ends a line.
#[tactic(auto, using(crate::proofs::LineLemmas::place_lemmas))]
pub fn place(text: &[u8], offset: u32) -> Place
    requires small { length text.now ≤ MAX_FILE_BYTES }
    requires within { offset ≤ length text.now }
    ensures line { result.line ≡ lines_before (take offset text.now) + 1 }
    ensures col { result.col ≡ column_after (take offset text.now) + 1 }
{
    let mut line = 1;
    let mut col = 1;
    for byte in &text[..offset as usize] {
        if *byte == b'\n' {
            line += 1;
            col = 1;
        } else {
            col += 1;
        }
    }
    Place { line, col }
}
