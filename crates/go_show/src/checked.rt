//! Whether the module in a folder is well typed (Go specification, Packages; Declarations and scope; Function
//! declarations; Method declarations; Program execution).

ghost use Rattle.std.specs.Prelude.{◌≡◌, ◌<◌, ◌≤◌, ◌^◌, All, IfOk, None, OnOk, length};
ghost use Rattle.go_tree.specs.GoTypes.WellTyped.{refused_place};
ghost use Rattle.package_blocks.specs.Collected.{AreOrdered};
ghost use Rattle.package_blocks.specs.Imports.{views};
ghost use Rattle.package_blocks.specs.FuncHeaders.Functions.{program_of};
ghost use Rattle.collected.specs.Declarations.{refusal_of};
ghost use Rattle.collected.specs.ValueHeaders.SpelledDecls.{PackagesAreSpelled};
ghost use Rattle.checked_modules.specs.FunctionBodies.Walked.{PackagesAreWalked};
ghost use Rattle.module_texts.specs.Modules.{IsReadFrom};

use crate::declared::{flushed, no_module, tell_of};
use crate::folder::{Unread, source_files};
use crate::places::path_of;
use checked_modules::{RefusedPlace, refused_place};
use fix_io::RealTree;
use folder_reading::MAX_FILES;
use go_tree::MAX_FILE_BYTES;
use module_reading::read_module_files;
use module_refusals::at_byte;
use module_texts::ReadModule;
use pkg_graph::Package;
use refusals::Detail;
use source_files::SourceFile;
use std::alloc::Global;
use std::env;
use std::io::{self, BufWriter, Write};
use std::rt::{Env, Files};

/// gofix's refusal of a place that isn't typed. Linear in the files.
fn refusal_at(files: &[SourceFile], packages: &[Package], place: RefusedPlace) -> Unread
    requires { All (λ f. length f.bytes ≤ MAX_FILE_BYTES) files.now }
{
    let path = path_of(packages, place);
    for file in files {
        if file.path.items() == path {
            return Unread::Refused(at_byte(file, place.at.start, Detail::NotTyped));
        }
    }
    // The file of each place was read.
    Unread::NoMemory
}

/// The refusal of the place that is refused first, if there is one.
fn refusal_of_first(
    files: &[SourceFile],
    packages: &[Package],
    first: Option<RefusedPlace>,
) -> Result<(), Unread>
    requires { All (λ f. length f.bytes ≤ MAX_FILE_BYTES) files.now }
    ensures { OnOk result (refusal_of first ≡ None) }
{
    match first {
        Some(place) => Err(refusal_at(files, packages, place)),
        None => Ok(()),
    }
}

/// Why packages aren't well typed, if they aren't.
fn check_packages(
    alloc: Global,
    files: &[SourceFile],
    packages: &[Package],
    order: &[u32],
) -> Result<(), Unread>
    requires few { length packages.now < 2 ^ 32 }
    requires order { AreOrdered packages.now order.now }
    requires spelled { PackagesAreSpelled (views packages.now) }
    requires walked { PackagesAreWalked (views packages.now) }
    requires small { All (λ f. length f.bytes ≤ MAX_FILE_BYTES) files.now }
    ensures { OnOk result (refused_place (program_of packages.now) ≡ None) }
{
    match refused_place(alloc, packages, order) {
        Ok(first) => refusal_of_first(files, packages, first),
        Err(_) => Err(Unread::NoMemory),
    }
}

/// Why a module that was read from these files isn't well typed, if it isn't.
fn check_module(alloc: Global, files: &[SourceFile], read: &ReadModule) -> Result<(), Unread>
    requires read { IsReadFrom files.now read.now }
    requires small { All (λ f. length f.bytes ≤ MAX_FILE_BYTES) files.now }
{
    let packages = read.graph.packages();
    if packages.len() > MAX_FILES as usize {
        return Err(Unread::NoMemory);
    }
    check_packages(alloc, files, packages, read.graph.order())
}

/// Why files are no module that is well typed, if they aren't.
fn check_files(alloc: Global, files: &[SourceFile]) -> Result<(), Unread>
    requires count { length files.now ≤ MAX_FILES }
    requires small { All (λ f. length f.bytes ≤ MAX_FILE_BYTES) files.now }
{
    match read_module_files(alloc, files) {
        Ok(module) => check_module(alloc, files, &module),
        Err(fault) => {
            drop(fault);
            Err(no_module(alloc, files))
        }
    }
}

/// Writes that a module is well typed.
fn write_typed<R: Print + AllocGlobal>(rt: &R) -> io::Result<()> {
    let mut out = BufWriter::new(rt.alloc(), io::writer(rt))?;
    let written = out.write_all(b"typed\n");
    flushed(&mut out, written)
}

/// Whether a module is well typed, as is written of it.
fn answer_of<R: Files + Print + AllocGlobal>(
    rt: &R,
    tree: &RealTree<R>,
    checked: Result<(), Unread>,
) -> io::Result<bool> {
    match checked {
        Ok(()) => {
            write_typed(rt)?;
            Ok(true)
        }
        Err(unread) => tell_of(rt, tree, &unread),
    }
}

/// Checks the module that the files of a folder are, if they were had.
fn check_found<R: Files + Print + AllocGlobal>(
    rt: &R,
    tree: &RealTree<R>,
    found: Result<Vec<SourceFile>, Unread>,
) -> io::Result<bool>
    requires count { IfOk found (λ files. length files.items ≤ MAX_FILES) }
    requires small { IfOk found (λ files. All (λ f. length f.bytes ≤ MAX_FILE_BYTES) files.items) }
{
    match found {
        Ok(files) => answer_of(rt, tree, check_files(rt.alloc(), &files)),
        Err(unread) => tell_of(rt, tree, &unread),
    }
}

/// Writes `typed` of a folder that holds a module that is well typed, and of another gofix's line that says why it
/// doesn't; answers whether it does. The folder is the working directory afterwards.
pub(crate) fn check_folder<R: Env + Files + Print + AllocGlobal>(
    rt: &R,
    folder: &str,
) -> io::Result<bool> {
    env::set_current_dir(rt, folder)?;
    let mut tree = RealTree::new(rt, rt.alloc())?;
    let found = source_files(rt.alloc(), &mut tree);
    check_found(rt, &tree, found)
}
