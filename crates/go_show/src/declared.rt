//! What the packages of a module declare (Go specification, Declarations and scope; Packages).

ghost use Rattle.std.specs.Prelude.{◌<◌, ◌≤◌, ◌^◌, All, IfOk, length};
ghost use Rattle.declared_types.specs.Steps.{KnowsPlaces};
ghost use Rattle.package_blocks.specs.Collected.{AreOrdered};
ghost use Rattle.package_blocks.specs.Imports.{views};
ghost use Rattle.operand_modes.specs.CheckerTables.Ready.{AreReady};
ghost use Rattle.initial_values.specs.ValueBlocks.Values.{AreThere};
ghost use Rattle.collected.specs.ValueHeaders.SpelledDecls.{PackagesAreSpelled};
ghost use Rattle.module_texts.specs.Modules.{IsReadFrom};

use crate::declarations::{Declarations, write_declarations, write_refused};
use crate::folder::{Unread, source_files, tell};
use checked_modules::file_places::file_places;
use checked_modules::refused_declaration;
use collected::{Collected, collect};
use fix_io::{RealSink, RealTree};
use folder_reading::MAX_FILES;
use go_tree::{MAX_FILE_BYTES, NoMemory, Text};
use header_order::{RefusedHeaders, RefusedPlace, refused_marks};
use module_reading::read_module_files;
use module_refusals::first_refusal;
use module_texts::ReadModule;
use operand_modes::checker_tables::Tables;
use package_blocks::PackageHeader;
use pkg_graph::Package;
use source_files::SourceFile;
use std::alloc::Global;
use std::env;
use std::io::{self, BufWriter, Write};
use std::rt::{Env, Files};
use typed_names::{Blocks, Scope};

/// Why files aren't shown as a module.
#[derive(Drop)]
enum Unshown {
    Unread(Unread),
    Io(io::Error),
}

/// Why files are no module.
pub(crate) fn no_module(alloc: Global, files: &[SourceFile]) -> Unread
    requires count { length files.now < 2 ^ 32 }
    requires small { All (λ f. length f.bytes ≤ MAX_FILE_BYTES) files.now }
{
    match first_refusal(alloc, files) {
        Ok(Some(refusal)) => Unread::Refused(refusal),
        Ok(None) => Unread::NoMemory,
        Err(_) => Unread::NoMemory,
    }
}

/// The import paths of packages by their numbers.
fn paths_of(alloc: Global, packages: &[Package]) -> Result<Vec<Text>, NoMemory> {
    let mut paths = Vec::new(alloc);
    for package in packages {
        paths.push(Text::copied(alloc, package.path.items())?)?;
    }
    Ok(paths)
}

/// Writes what packages declare, where these headers are refused.
fn write_shown<W: Write>(
    alloc: Global,
    out: &mut W,
    files: &[SourceFile],
    packages: &[Package],
    order: &[u32],
    tables: &Tables,
    blocks: &Blocks,
    headers: &[PackageHeader],
    refused: &RefusedHeaders,
) -> io::Result<()>
    requires { AreThere tables.now.env tables.now.consts blocks.now }
{
    let marks = refused_marks(alloc, headers.len(), refused)?;
    let paths = paths_of(alloc, packages)?;
    let declared = Declarations {
        types: &tables.env,
        consts: &tables.consts,
        blocks,
        headers,
        marks: &marks,
        paths: &paths,
    };
    write_declarations(alloc, out, files, packages, order, &declared)
}

/// The first import or declaration that is refused.
fn first_refused(
    alloc: Global,
    packages: &[Package],
    order: &[u32],
    tables: Tables,
    blocks: &Blocks,
    places: &[Scope],
    headers: &[PackageHeader],
    refused: &RefusedHeaders,
) -> Result<Option<RefusedPlace>, NoMemory>
    requires order { AreOrdered packages.now order.now }
    requires ready { AreReady tables }
    requires places { KnowsPlaces tables.env blocks.now places.now }
{
    let trees = file_places(alloc, packages, order, headers)?;
    refused_declaration(
        alloc, packages, order, tables, blocks, places, &trees, headers, refused,
    )
}

/// Writes the place that is refused first, where the declarations were written.
fn write_first<W: Write>(
    out: &mut W,
    files: &[SourceFile],
    packages: &[Package],
    written: io::Result<()>,
    first: Result<Option<RefusedPlace>, NoMemory>,
) -> io::Result<()> {
    written?;
    match first? {
        Some(place) => write_refused(out, files, packages, place),
        None => Ok(()),
    }
}

/// Writes what packages declare, and the first import or declaration that is refused.
fn write_packages<W: Write>(
    alloc: Global,
    out: &mut W,
    files: &[SourceFile],
    packages: &[Package],
    order: &[u32],
) -> io::Result<()>
    requires few { length packages.now < 2 ^ 32 }
    requires order { AreOrdered packages.now order.now }
    requires spelled { PackagesAreSpelled (views packages.now) }
{
    let Collected {
        tables,
        blocks,
        files: places,
        headers,
        refused_types: types,
        refused_values: values,
        refused_functions: functions,
        refused_methods: methods,
    } = collect(alloc, packages, order)?;
    let refused = RefusedHeaders {
        types,
        values,
        functions,
        methods,
    };
    let written = write_shown(
        alloc, out, files, packages, order, &tables, &blocks, &headers, &refused,
    );
    let first = first_refused(
        alloc, packages, order, tables, &blocks, &places, &headers, &refused,
    );
    write_first(out, files, packages, written, first)
}

/// Writes what the packages of a module declare.
fn write_module<W: Write>(
    alloc: Global,
    out: &mut W,
    files: &[SourceFile],
    read: &ReadModule,
) -> io::Result<()>
    requires { IsReadFrom files.now read.now }
{
    let packages = read.graph.packages();
    if packages.len() > MAX_FILES as usize {
        return Err(io::Error::from(io::ErrorKind::InvalidData));
    }
    write_packages(alloc, out, files, packages, read.graph.order())
}

/// Ends what is written, if it was.
pub(crate) fn flushed<W: Write>(out: &mut W, written: io::Result<()>) -> io::Result<()> {
    written?;
    out.flush()
}

/// Writes to standard output what the packages of a module declare.
fn show_module<R: Print + AllocGlobal>(
    rt: &R,
    alloc: Global,
    files: &[SourceFile],
    read: &ReadModule,
) -> io::Result<()>
    requires { IsReadFrom files.now read.now }
{
    let mut out = BufWriter::new(alloc, io::writer(rt))?;
    let written = write_module(alloc, &mut out, files, read);
    flushed(&mut out, written)
}

fn shown(written: io::Result<()>) -> Result<(), Unshown> {
    match written {
        Ok(()) => Ok(()),
        Err(fault) => Err(Unshown::Io(fault)),
    }
}

/// Writes what the packages of the module declare that files are.
fn show_files<R: Print + AllocGlobal>(
    rt: &R,
    alloc: Global,
    files: &[SourceFile],
) -> Result<(), Unshown>
    requires count { length files.now ≤ MAX_FILES }
    requires small { All (λ f. length f.bytes ≤ MAX_FILE_BYTES) files.now }
{
    match read_module_files(alloc, files) {
        Ok(module) => shown(show_module(rt, alloc, files, &module)),
        Err(fault) => {
            drop(fault);
            Err(Unshown::Unread(no_module(alloc, files)))
        }
    }
}

/// Writes gofix's line of a folder that is no module.
pub(crate) fn tell_of<R: Files + Print + AllocGlobal>(
    rt: &R,
    tree: &RealTree<R>,
    unread: &Unread,
) -> io::Result<bool> {
    let mut out = RealSink::new(rt);
    match tell(&mut out, tree, unread) {
        Ok(()) => Ok(false),
        Err(_) => Err(io::Error::from(io::ErrorKind::WriteZero)),
    }
}

/// Whether files were shown as a module, with gofix's line of a folder that is none.
fn answer_of<R: Files + Print + AllocGlobal>(
    rt: &R,
    tree: &RealTree<R>,
    shown: Result<(), Unshown>,
) -> io::Result<bool> {
    match shown {
        Ok(()) => Ok(true),
        Err(Unshown::Unread(unread)) => tell_of(rt, tree, &unread),
        Err(Unshown::Io(fault)) => Err(fault),
    }
}

/// Shows the module that the files of a folder are, if they were had.
fn show_found<R: Files + Print + AllocGlobal>(
    rt: &R,
    tree: &RealTree<R>,
    found: Result<Vec<SourceFile>, Unread>,
) -> io::Result<bool>
    requires count { IfOk found (λ files. length files.items ≤ MAX_FILES) }
    requires small { IfOk found (λ files. All (λ f. length f.bytes ≤ MAX_FILE_BYTES) files.items) }
{
    match found {
        Ok(files) => answer_of(rt, tree, show_files(rt, rt.alloc(), &files)),
        Err(unread) => tell_of(rt, tree, &unread),
    }
}

/// Writes what the packages of the module in a folder declare, or gofix's line that says why it is none; answers
/// whether it is one. The folder is the working directory afterwards.
pub(crate) fn show_declared<R: Env + Files + Print + AllocGlobal>(
    rt: &R,
    folder: &str,
) -> io::Result<bool> {
    env::set_current_dir(rt, folder)?;
    let mut tree = RealTree::new(rt, rt.alloc())?;
    let found = source_files(rt.alloc(), &mut tree);
    show_found(rt, &tree, found)
}
