//! The types that a module declares.

ghost use Rattle.std.specs.Prelude.{◌<◌, ◌^◌, IfOk, length};
ghost use Rattle.collected.specs.ValueHeaders.SpelledDecls.{PackagesAreSpelled};
ghost use Rattle.literal_tables.specs.HasTypes.{HasTypes};
ghost use Rattle.package_blocks.specs.Collected.{AreOrdered};
ghost use Rattle.package_blocks.specs.Imports.{views};
ghost use Rattle.run_rules.specs.Programs.{world};

use collected::collect;
use declared_literals::literal_types;
use go_tree::NoMemory;
use pkg_graph::Package;
use repeated_parts::literal_types::LiteralTypes;
use std::alloc::Global;

/// The table of the types that packages declare, which tells the search for uses which keys of composite literals name
/// fields (Go specification, Type declarations; Composite literals). The only error is want of memory.
pub(crate) fn declared_types(
    alloc: Global,
    packages: &[Package],
    order: &[u32],
) -> Result<LiteralTypes, NoMemory>
    requires few { length packages.now < 2 ^ 32 }
    requires order { AreOrdered packages.now order.now }
    requires spelled { PackagesAreSpelled (views packages.now) }
    ensures { IfOk result (HasTypes (world (views packages.now))) }
{
    let declarations = collect(alloc, packages, order)?;
    literal_types(alloc, &declarations)
}
