//! The rows of the uses that a program keeps.

ghost use Rattle.std.specs.Prelude.{◌≡◌, IfOk, OnOk, Some, option_copied, slice_get};
ghost use Rattle.file_tables.specs.Blocks.{HasOwnTable, block_in};
ghost use Rattle.stepped_programs.specs.RunReports.Kept.{AreFileOrigins, IsFileTold, IsKeptLook, IsPackageTold, IsProgramTold};
ghost use Rattle.stepped_programs.specs.RunReports.Kept.{MayBeTold, origins_at, source_at, tokens_at};

use crate::held_blocks::block_of;
use crate::package_search::{FileLook, ProgramSources, look_at_file};
use crate::run_reports::kept::{KeptFile, add_kept};
use file_names::Places;
use file_tables::Block;
use go_scan::Tokens;
use go_tree::NoMemory;
use pkg_graph::{Package, SourceTree};
use programs::{OriginTable, Origins, Program, use_origins};
use report_order::ReportRow;
use std::alloc::{AllocError, Global};

/// The package with this number.
fn package_at(program: &Program, number: usize) -> Option<&Package>
    ensures { option_copied result ≡ slice_get program.now.packages.items number }
{
    program.packages.get(number)
}

/// The tokens of the file with these numbers.
fn tokens_at(program: &Program, home: usize, file: usize) -> Option<&Tokens>
    ensures { option_copied result ≡ tokens_at program.now home file }
{
    match program.files.get(home) {
        None => None,
        Some(kept) => kept.tokens.get(file),
    }
}

/// Where its parts come from.
fn origins_at(program: &Program, home: usize, file: usize) -> Option<&Origins>
    ensures { option_copied result ≡ origins_at program.now home file }
{
    match program.origins.get(home) {
        None => None,
        Some(kept) => kept.files.get(file),
    }
}

/// Looks at the file with these numbers; an error where one of its uses is free, or where its tokens aren't kept, too.
fn look_at(
    alloc: Global,
    program: &Program,
    home: usize,
    file: usize,
    source: &SourceTree,
    block: Block,
) -> Result<FileLook, NoMemory>
    requires told { MayBeTold program.now }
    requires table { HasOwnTable block }
    ensures look { IfOk result (IsKeptLook program.now home block.names (file, source.now)) }
    ensures block { IfOk result (λ l. block_in l.tables ≡ block) }
{
    let Some(tokens) = tokens_at(program, home, file) else {
        return Err(AllocError);
    };
    let sources = ProgramSources {
        packages: &program.packages,
        places: &program.places,
        marks: &program.marks,
        values: &program.values,
        types: &program.types,
    };
    let look = look_at_file(alloc, &sources, home, source, tokens, block)?;
    if look.free.is_some() {
        return Err(AllocError);
    }
    Ok(look)
}

/// Where the names in the file come from; an error where that isn't kept, too.
fn file_origins(
    alloc: Global,
    program: &Program,
    home: usize,
    file: usize,
    source: &SourceTree,
) -> Result<OriginTable, NoMemory>
    requires told { MayBeTold program.now }
    requires there { source_at program.now home file ≡ Some source.now }
    ensures { IfOk result (AreFileOrigins program.now home (file, source.now)) }
{
    let Some(origins) = origins_at(program, home, file) else {
        return Err(AllocError);
    };
    let table = use_origins(alloc, source.tree.decls.items(), &origins.decls)?;
    Ok(table)
}

/// Adds the rows of the uses that the file keeps, and hands its package's block back.
fn add_file(
    alloc: Global,
    program: &Program,
    files: &Places,
    home: usize,
    file: usize,
    source: &SourceTree,
    block: Block,
    rows: &mut Vec<ReportRow>,
) -> Result<Block, NoMemory>
    requires told { MayBeTold program.now }
    requires there { source_at program.now home file ≡ Some source.now }
    requires table { HasOwnTable block }
    ensures block { IfOk result (λ b. b ≡ block) }
    ensures rows { OnOk result (IsFileTold program.now files.now home block.names (file, source.now)
        rows.old.items rows.new.items) }
{
    let look = look_at(alloc, program, home, file, source, block)?;
    let origins = file_origins(alloc, program, home, file, source)?;
    let kept = KeptFile {
        packages: &program.packages,
        files,
        path: source.path.items(),
        origins: &origins,
    };
    add_kept(alloc, &kept, &look.kept, rows)?;
    let FileLook { tables, .. } = look;
    Ok(Block::in_tables(tables))
}

/// Adds the rows of the uses that the files of the package with this number keep.
fn add_package(
    alloc: Global,
    program: &Program,
    files: &Places,
    number: usize,
    rows: &mut Vec<ReportRow>,
) -> Result<(), NoMemory>
    requires { MayBeTold program.now }
    ensures { OnOk result (IsPackageTold program.now files.now number rows.old.items rows.new.items) }
{
    let Some(home) = package_at(program, number) else {
        return Err(AllocError);
    };
    let mut block = block_of(alloc, number, home)?;
    for (file, source) in home.files.items().iter().enumerate() {
        block = add_file(alloc, program, files, number, file, source, block, rows)?;
    }
    Ok(())
}

/// Adds the rows of the uses that a program keeps, none of whose uses is free: packages in the order of their imports,
/// files by their paths, and uses in the order of a search, each place once. `files` says where each file of the report
/// stands by its path. An error where memory is refused; also where a use is free, or where what is kept of a file is
/// missing or the report has no such file, none of which comes at the end of a run.
///
/// One look at each file, see package_search's `look_at_file`; one look-up for each use that is kept, and a step for
/// each name of the declaration of its constant.
pub fn add_kept_uses(
    alloc: Global,
    program: &Program,
    files: &Places,
    rows: &mut Vec<ReportRow>,
) -> Result<(), NoMemory>
    requires { MayBeTold program.now }
    ensures { OnOk result (IsProgramTold program.now files.now rows.old.items rows.new.items) }
{
    for number in &program.order {
        add_package(alloc, program, files, *number as usize, rows)?;
    }
    Ok(())
}
