//! What the packages of a module declare, in one call (Go specification, Blocks; Declarations and scope;
//! Packages).

ghost use Rattle.std.specs.Prelude.{◌<◌, ◌^◌, length, IfOk};
ghost use Rattle.package_blocks.specs.Collected.{AreOrdered};
ghost use Rattle.package_blocks.specs.Imports.{views};
ghost use Rattle.package_blocks.specs.FuncHeaders.Functions.{program_of};
ghost use Rattle.collected.specs.ValueHeaders.SpelledDecls.{PackagesAreSpelled};
ghost use Rattle.collected.specs.Collected.{AreDeclarations};

use crate::methods::add_methods;
use crate::package_values::{DeclaredValues, declare_values};
use crate::types::{KnownTypes, known_types};
use go_tree::NoMemory;
use operand_modes::checker_tables::Tables;
use package_blocks::func_headers::declare_functions;
use package_blocks::{PackageHeader, PackageNames, collect_names};
use pkg_graph::Package;
use std::alloc::Global;
use typed_names::{Blocks, Scope};

/// The tables of types and constants with all that packages declare, the package blocks by the numbers of packages,
/// the places outside all functions of all files and all headers, both by package after package in their dependency
/// order; and, by kinds, the numbers of the headers that are refused, in their order. Values are constants and
/// variables.
#[derive(Drop)]
pub struct Collected<'a> {
    pub tables: Tables,
    pub blocks: Blocks,
    pub files: Vec<Scope>,
    pub headers: Vec<PackageHeader<'a>>,
    pub refused_types: Vec<usize>,
    pub refused_values: Vec<usize>,
    pub refused_functions: Vec<usize>,
    pub refused_methods: Vec<usize>,
}

/// What the packages of a module declare, in their order: types, functions, constants, variables and methods. The
/// literals of values have to be well spelled, as they are in files that read (value_headers'
/// `read_values_are_spelled`). The error is want of memory.
pub fn collect<'a>(
    alloc: Global,
    packages: &'a [Package],
    order: &[u32],
) -> Result<Collected<'a>, NoMemory>
    requires few { length packages.now < 2 ^ 32 }
    requires order { AreOrdered packages.now order.now }
    requires spelled { PackagesAreSpelled (views packages.now) }
    ensures { IfOk result (AreDeclarations (program_of packages.now)) }
{
    let PackageNames {
        mut blocks,
        files,
        headers,
    } = collect_names(alloc, packages, order)?;
    let KnownTypes {
        mut tables,
        refused: refused_types,
    } = known_types(alloc, &files, &mut blocks, &headers)?;
    let refused_functions = declare_functions(
        alloc,
        &mut tables.env,
        &mut tables.flags,
        packages,
        &files,
        &mut blocks,
        &headers,
    )?;
    let DeclaredValues {
        blocks: declared,
        refused: refused_values,
    } = declare_values(alloc, &mut tables, &files, &blocks, &headers)?;
    let refused_methods = add_methods(alloc, &mut tables, &files, &declared, &headers)?;
    Ok(Collected {
        tables,
        blocks: declared,
        files,
        headers,
        refused_types,
        refused_values,
        refused_functions,
        refused_methods,
    })
}
