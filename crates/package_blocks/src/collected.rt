//! The names and headers of a program (Go specification, Blocks; Packages; Program initialization).

ghost use Rattle.std.specs.Prelude.{◌≡◌, ◌<◌, ◌+◌, ◌^◌, length, IfOk, OnOk};
ghost use Rattle.package_blocks.specs.Headers.{AddsFiles};
ghost use Rattle.package_blocks.specs.Imports.{AreNumbers, views};
ghost use Rattle.package_blocks.specs.Collected.{AddsPackage, AddsScopes, AreCollected, AreOrdered, IsEmpty, decls_in};

use crate::decls::add_decls;
use crate::headers::{FileAt, PackageHeader};
use crate::imports::file_block;
use crate::numbers::{PathNumbers, package_numbers};
use go_tree::NoMemory;
use pkg_graph::{Package, SourceTree, one_order_at_most};
use std::alloc::Global;
use typed_names::{Block, Blocks, Locals, Scope};

/// What is collected of a program: the package blocks by the numbers of packages, in which each
/// declared name means nothing that is known yet; the places outside all functions of all files, the
/// files of one package after the other in their dependency order; and all headers in the same order.
#[derive(Drop)]
pub struct PackageNames<'a> {
    pub blocks: Blocks,
    pub files: Vec<Scope>,
    pub headers: Vec<PackageHeader<'a>>,
}

/// Blocks without names.
fn empty_blocks(alloc: Global, count: usize) -> Result<Blocks, NoMemory>
    ensures { IfOk result (IsEmpty count) }
{
    let mut blocks = Blocks::new(alloc);
    for _ in 0..count {
        blocks.push(Block::new(alloc))?;
    }
    Ok(blocks)
}

/// Adds the headers of files, the first of which has this number.
fn add_files<'a>(
    alloc: Global,
    blocks: &mut Blocks,
    headers: &mut Vec<PackageHeader<'a>>,
    home: u32,
    first: usize,
    files: &'a [SourceTree],
) -> Result<(), NoMemory>
    requires within { home < length blocks.old }
    requires few { first + length files.now < 2 ^ 64 }
    ensures { OnOk result (AddsFiles home first (decls_in files.now)
        blocks.old blocks.new headers.old.items headers.new.items) }
{
    for (i, file) in files.iter().enumerate() {
        let at = FileAt {
            home,
            file: first + i,
        };
        add_decls(alloc, blocks, headers, at, &file.tree)?;
    }
    Ok(())
}

/// Adds the places outside all functions of files.
fn add_scopes(
    alloc: Global,
    packages: &[Package],
    numbers: &PathNumbers,
    blocks: &Blocks,
    scopes: &mut Vec<Scope>,
    home: u32,
    files: &[SourceTree],
) -> Result<(), NoMemory>
    requires few { length packages.now < 2 ^ 32 }
    requires numbers { AreNumbers packages.now numbers.now }
    ensures { OnOk result (AddsScopes packages.now blocks.now home files.now scopes.old.items scopes.new.items) }
{
    for file in files {
        let imports = file_block(alloc, packages, numbers, blocks, home, &file.tree.imports)?;
        scopes.push(Scope {
            locals: Locals::new(alloc),
            imports,
            home,
            iota: None,
        })?;
    }
    Ok(())
}

/// Adds the names, the files and the headers of a package.
fn add_package<'a>(
    alloc: Global,
    packages: &'a [Package],
    numbers: &PathNumbers,
    number: u32,
    collected: &mut PackageNames<'a>,
) -> Result<(), NoMemory>
    requires few { length packages.now < 2 ^ 32 }
    requires numbers { AreNumbers packages.now numbers.now }
    requires blocks { length collected.old.blocks ≡ length packages.now }
    ensures { OnOk result (AddsPackage packages.now number collected.old collected.new) }
{
    match packages.get(number as usize) {
        Some(package) => {
            let files = package.files.items();
            let first = collected.files.len();
            add_files(
                alloc,
                &mut collected.blocks,
                &mut collected.headers,
                number,
                first,
                files,
            )?;
            add_scopes(
                alloc,
                packages,
                numbers,
                &collected.blocks,
                &mut collected.files,
                number,
                files,
            )?;
            Ok(())
        }
        None => Ok(()),
    }
}

/// The names, the files and the headers of the packages of a module in their order, before anything is
/// known of what they declare.
pub fn collect_names<'a>(
    alloc: Global,
    packages: &'a [Package],
    order: &[u32],
) -> Result<PackageNames<'a>, NoMemory>
    requires few { length packages.now < 2 ^ 32 }
    requires order { AreOrdered packages.now order.now }
    ensures { IfOk result (AreCollected (views packages.now)) }
{
    one_order_at_most();
    let numbers = package_numbers(alloc, packages)?;
    let mut collected = PackageNames {
        blocks: empty_blocks(alloc, packages.len())?,
        files: Vec::new(alloc),
        headers: Vec::new(alloc),
    };
    for number in order {
        add_package(alloc, packages, &numbers, *number, &mut collected)?;
    }
    Ok(collected)
}
