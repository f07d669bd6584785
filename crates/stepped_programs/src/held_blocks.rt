//! The block of a package, held from one step of a run to the next.

ghost use Rattle.std.specs.Prelude.{◌≡◌, IfOk, None};
ghost use Rattle.stepped_programs.specs.HeldBlocks.{IsBlock, IsHeldOf};

use file_names::{block_members, member_names};
use file_tables::Block;
use go_tree::NoMemory;
use pkg_graph::Package;
use std::alloc::Global;

/// The block of the package with this number, as it was looked at last.
#[derive(Drop)]
pub struct HeldBlock {
    pub home: usize,
    pub block: Block,
}

/// The block of the package with this number. An error where memory is refused, or where there are 2^32 names. One step
/// for each declaration of the package.
pub(crate) fn block_of(alloc: Global, number: usize, home: &Package) -> Result<Block, NoMemory>
    ensures { IfOk result (IsBlock home.now) }
{
    let members = block_members(alloc, number, home)?;
    let names = member_names(alloc, &members)?;
    let block = Block::of(alloc, names)?;
    Ok(block)
}

/// The same, where what is held is of that package; nothing is held afterwards. One step then.
pub(crate) fn taken_block(
    alloc: Global,
    number: usize,
    home: &Package,
    held: &mut Option<HeldBlock>,
) -> Result<Block, NoMemory>
    requires { IsHeldOf number home.now held.old }
    ensures block { IfOk result (IsBlock home.now) }
    ensures none { held.new ≡ None }
{
    let Some(last) = held.take() else {
        return block_of(alloc, number, home);
    };
    let HeldBlock { home: of, block } = last;
    if of == number {
        return Ok(block);
    }
    block_of(alloc, number, home)
}
