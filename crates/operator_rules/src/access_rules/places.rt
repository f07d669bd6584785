//! Where an operand stands (Go specification, Address operators; Assignment statements).

/// Whether an operand is addressable, an element of a map, or a composite literal.
#[derive(Clone, Copy, Debug, PartialEq, Eq)]
pub enum Place {
    Addressable,
    MapElement,
    Literal,
    Elsewhere,
}
