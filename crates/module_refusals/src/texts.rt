//! What stands in a text, and where.

ghost use Rattle.std.specs.Prelude.{◌≡◌, ◌≤◌, drop, length, take};
ghost use Rattle.go_scan.specs.Unsupported.{bytes_in};
ghost use Rattle.source_files.specs.Places.{place_of};

use go_tree::{MAX_FILE_BYTES, Place, Span};
use text_places::place;

/// The bytes from an offset on.
fn bytes_from(text: &[u8], offset: u32) -> &[u8]
    ensures { result.now ≡ drop offset text.now }
{
    if offset as usize <= text.len() {
        &text[offset as usize..]
    } else {
        &text[text.len()..]
    }
}

/// The first so many bytes, or all of them where there are fewer.
fn first_bytes(text: &[u8], count: u32) -> &[u8]
    ensures { result.now ≡ take count text.now }
{
    if count as usize <= text.len() {
        &text[..count as usize]
    } else {
        text
    }
}

/// The bytes within a span.
pub(crate) fn bytes_in(text: &[u8], span: Span) -> &[u8]
    ensures { result.now ≡ bytes_in text.now span }
{
    first_bytes(
        bytes_from(text, span.start),
        span.end.saturating_sub(span.start),
    )
}

/// Where the byte at an offset stands. An offset behind the end counts as the end.
pub(crate) fn place_of(text: &[u8], offset: u32) -> Place
    requires { length text.now ≤ MAX_FILE_BYTES }
    ensures { result ≡ place_of text.now offset }
{
    if offset as usize <= text.len() {
        place(text, offset)
    } else {
        place(text, text.len() as u32)
    }
}
