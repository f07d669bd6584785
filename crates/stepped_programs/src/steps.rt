//! Steps put into programs.

ghost use Rattle.std.specs.Prelude.{◌≡◌, ◌+◌, ◌<◌, ◌≤◌, ◌^◌, IfOk, List, OnOk, Some, length};
ghost use Rattle.std.specs.Prelude.{slice_get, ℕ};
ghost use Rattle.file_names.specs.Imports.{FindsPackages};
ghost use Rattle.file_tables.specs.Blocks.{HasOwnTable};
ghost use Rattle.programs.specs.declared.state.PackageFiles as declared;
ghost use Rattle.stepped_programs.specs.Texts.{HoldsFile};
ghost use Rattle.stepped_programs.specs.Steps.{AreFileValues, AreOtherValues, AreSwapped, HoldsSource};
ghost use Rattle.stepped_programs.specs.Steps.{IsStepPut, MayBePut};

use crate::declarations::{decl_at, spans_at};
use crate::flags::unsettle;
use crate::origins::put_origins;
use crate::place::StepPlace;
use crate::swapped::swapped_origins;
use crate::texts::put_text;
use file_names::Places;
use file_tables::{Block, package_order, replace_file};
use go_tree::{NoMemory, Span};
use pkg_graph::Package;
use programs::{PackageFiles, Program, fill_source};
use repeated_parts::use_search::mark_values::ConstantValues;
use std::alloc::Global;
use step_files::NewFile;

/// The bytes of a module, of which a text of so many bytes gave way to one of so many.
fn bytes_after(bytes: u32, old: usize, new: usize) -> u32
    requires fits { old ≤ bytes }
    requires small { bytes + new < 2 ^ 32 }
    ensures { result + old ≡ bytes + new }
{
    bytes - old as u32 + new as u32
}

/// The bytes of the text of a file.
fn text_size(files: &[PackageFiles], home: usize, file: usize) -> usize
    requires { HoldsFile home file files.now }
    ensures { (kept : declared.PackageFiles) (body : List ℕ) → slice_get files.now home ≡ Some kept
        → slice_get kept.texts.items file ≡ Some body → result ≡ length body }
{
    let kept = &files[home];
    kept.texts[file].items().len()
}

/// The table has what the constants of the file at the place are declared as from now on, by its package's block, which
/// is handed back.
fn put_values(
    alloc: Global,
    packages: &[Package],
    places: &Places,
    at: StepPlace,
    block: Block,
    values: &mut ConstantValues,
) -> Result<Block, NoMemory>
    requires places { FindsPackages places.now packages.now }
    requires few { length packages.now < 2 ^ 32 }
    requires here { HoldsSource at packages.now }
    requires table { HasOwnTable block }
    ensures here { OnOk result (AreFileValues at block.names packages.now values.new) }
    ensures others { OnOk result (AreOtherValues at values.old values.new) }
    ensures block { IfOk result (λ b. b ≡ block) }
{
    let home = &packages[at.home];
    let source = &home.files.items()[at.file];
    let block = fill_source(
        alloc, packages, places, at.home, at.file, source, block, values,
    )?;
    Ok(block)
}

/// Where the parts of the declaration at the place come from, once the use in it that stands there became a name,
/// qualified or not; asked of a program before the step. An error where memory is refused. Linear in the declaration.
pub fn step_origins(
    alloc: Global,
    program: &Program,
    at: StepPlace,
    use_: Span,
    qualified: bool,
) -> Result<Vec<Span>, NoMemory>
    ensures { IfOk result (λ os. AreSwapped program.now at qualified use_ os.items) }
{
    let Some(decl) = decl_at(&program.packages, at) else {
        return Ok(Vec::new(alloc));
    };
    let Some(origins) = spans_at(&program.origins, at) else {
        return Ok(Vec::new(alloc));
    };
    swapped_origins(alloc, decl, origins, use_, qualified)
}

/// Puts the file that a step made in the place of the old one: its tree, its text with tokens and comments, the origins
/// of the declaration at the place (`step_origins`), and what the file's constants are declared as, by its package's
/// block, which is handed back. Files that use a constant of the declaration are looked at again, and the packages
/// stand in dependency order. An error where memory is refused, or where the file has 2^32 imports; the program is of
/// no use then.
///
/// Linear in the file, with one look-up for each file and three for each import.
pub fn put_step(
    alloc: Global,
    program: &mut Program,
    at: StepPlace,
    origins: Vec<Span>,
    block: Block,
    file: NewFile,
) -> Result<Block, NoMemory>
    requires may { MayBePut program.old at file }
    requires table { HasOwnTable block }
    ensures put { OnOk result (IsStepPut at origins.items block.names file program.old program.new) }
    ensures block { IfOk result (λ b. b ≡ block) }
{
    let NewFile { text, tokens, tree } = file;
    replace_file(alloc, &mut program.packages, at.home, at.file, tree);
    let old = text_size(&program.files, at.home, at.file);
    program.bytes = bytes_after(program.bytes, old, text.items().len());
    put_text(&mut program.files, at.home, at.file, text, tokens);
    let decl = (at.home, (at.file, at.decl));
    unsettle(&mut program.files, &program.users, decl);
    put_origins(&mut program.origins, at, origins);
    program.order = package_order(alloc, &program.packages)?;
    let block = put_values(
        alloc,
        &program.packages,
        &program.places,
        at,
        block,
        &mut program.values,
    )?;
    Ok(block)
}
