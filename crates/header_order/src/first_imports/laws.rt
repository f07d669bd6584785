//! The law of names of package blocks.

ghost use Rattle.header_order.specs.FirstImports.Laws.{BlocksHaveNames};

/// Where names mean in the tables what the rounds of all headers find, the block of each package has the names that
/// its files declare (Go specification, Package block).
pub fn blocks_have_names()
    ensures { BlocksHaveNames }
{}
