//! Laws of bodies.

ghost use Rattle.checked_modules.specs.RefusedBodies.Laws.{FirstBodiesByFiles, ShortDecimalsAreLiterals};

/// The first body of a package that is refused is that of the first function in the order of its files and of the
/// declarations in them.
pub fn first_bodies_by_files()
    ensures { FirstBodiesByFiles }
{}

/// A decimal literal of at most 18 digits is spelled as an integer literal, and stands for its number.
pub fn short_decimals_are_literals()
    ensures { ShortDecimalsAreLiterals }
{}
