//! Where things stand in a text.

/// The bytes from `start` up to but without `end`, counted from 0. `start` is at most `end`.
#[derive(Clone, Copy, Debug, PartialEq, Eq)]
pub struct Span {
    pub start: u32,
    pub end: u32,
}

/// A line and a byte within it, both counted from 1. Only the byte 10 ends a line.
#[derive(Clone, Copy, Debug, PartialEq, Eq)]
pub struct Place {
    pub line: u32,
    pub col: u32,
}
