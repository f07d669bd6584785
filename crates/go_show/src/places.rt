//! Places of a text, one after another, and the path of the file of a place.

use go_tree::Place;
use header_order::RefusedPlace;
use pkg_graph::Package;

/// A text, and a place in it from which later ones are reached, so that all places of a text take time that is
/// linear in it.
#[derive(Clone, Copy)]
pub(crate) struct Cursor<'a> {
    text: &'a [u8],
    offset: usize,
    place: Place,
}

impl<'a> Cursor<'a> {
    /// The begin of a text.
    pub(crate) fn new(text: &'a [u8]) -> Cursor<'a> {
        Cursor {
            text,
            offset: 0,
            place: Place { line: 1, col: 1 },
        }
    }

    /// Moves by one byte.
    fn step(&mut self, byte: u8) {
        self.offset = self.offset.saturating_add(1);
        if byte == b'\n' {
            self.place.line = self.place.line.saturating_add(1);
            self.place.col = 1;
        } else {
            self.place.col = self.place.col.saturating_add(1);
        }
    }

    /// Moves on to an offset, and answers the place there. An offset behind the end counts as the end, one before
    /// the place as the place.
    pub(crate) fn advance(&mut self, offset: u32) -> Place {
        let text = self.text;
        for i in self.offset..(offset as usize).min(text.len()) {
            self.step(text[i]);
        }
        self.place
    }
}

/// The path of the file of a place that is refused.
pub(crate) fn path_of<'a>(packages: &'a [Package], refused: RefusedPlace) -> &'a [u8] {
    let Some(package) = packages.get(refused.package as usize) else {
        return b"".as_slice();
    };
    match package.files.items().get(refused.file) {
        Some(tree) => tree.path.items(),
        None => b"".as_slice(),
    }
}
