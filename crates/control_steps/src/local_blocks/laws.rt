//! What expressions see of blocks.

ghost use Rattle.control_steps.specs.LocalBlocks.Laws.{BlocksBegin, ExpressionsSeeNames, PlacesAreEnvironments};

/// What an expression or a type is doesn't depend on which names the innermost block declares; a place
/// in a block is the place in the file with those names; and a block begins with none.
pub fn blocks_are_seen_alike()
    ensures expressions { ExpressionsSeeNames }
    ensures places { PlacesAreEnvironments }
    ensures begin { BlocksBegin }
{}
