//! Laws of frames: a term depends on the variables that it names, and on no others.

ghost use Rattle.go_kernel.specs.Laws.{ActsBehind, ActsInFront};

/// A term whose free names stand in a front of the frame acts as in that front, and leaves the rest of the frame alone.
pub fn acts_in_front()
    ensures { ActsInFront }
{}

/// A term acts behind variables that it doesn't name as without them, and leaves them alone.
pub fn acts_behind()
    ensures { ActsBehind }
{}
