//! A module from its files.

ghost use Rattle.std.specs.Prelude.{◌≡◌, ◌<◌, ◌^◌, ◌≤◌, All, IfErr, IfOk, OnOk, length};
ghost use Rattle.pkg_graph.specs.ModuleFiles.ModuleFile.{is_module};
ghost use Rattle.module_texts.specs.Files.{IsScanned, sources_of};
ghost use Rattle.module_texts.specs.Modules.{IsReadFrom, Refuses, RefusesModule, module_answer};
ghost use Rattle.module_texts.specs.Refusals.{HasWords, IsShallow, RefusesWords};

use crate::checks::{first_too_deep, first_unsupported};
use crate::scanned::scan_files;
use crate::trees::parse_files;
use go_tree::MAX_FILE_BYTES;
use module_texts::{ReadFault, ReadModule, ScannedFile, TextFault, is_go_file};
use pkg_graph::{Graph, GraphError, Module, build, read_module};
use source_files::SourceFile;
use std::alloc::Global;

/// The module that `go.mod` in the root names.
fn find_module(alloc: Global, files: &[SourceFile]) -> Result<Module, GraphError>
    ensures found { IfOk result (λ m. module_answer (sources_of files.now) ≡ is_module m.path) }
    ensures cause { IfErr result (RefusesModule (sources_of files.now)) }
{
    for file in files {
        if !is_go_file(file) {
            return read_module(alloc, file.bytes.items());
        }
    }
    Err(GraphError::NoModuleLine)
}

/// Whether all words are supported and no file nests too deeply.
fn check_tokens(files: &[ScannedFile]) -> Result<(), ReadFault>
    requires count { length files.now < 2 ^ 32 }
    requires scanned { All IsScanned files.now }
    ensures words { OnOk result (All HasWords files.now) }
    ensures shallow { OnOk result (All IsShallow files.now) }
    ensures refused { IfErr result (RefusesWords files.now) }
{
    if let Some((file, span)) = first_unsupported(files) {
        return Err(ReadFault::Text {
            file,
            fault: TextFault::Unsupported(span),
        });
    }
    match first_too_deep(files) {
        Some((file, at)) => Err(ReadFault::Text {
            file,
            fault: TextFault::TooDeep(at),
        }),
        None => Ok(()),
    }
}

/// The module that these files of a folder are, each read once.
///
/// The checks come in this order, each over all files in the order given before the next begins: `go.mod`; UTF-8 and
/// tokens; words that aren't supported; nesting; grammar; names of packages; paths of imports; cycles of imports;
/// internal packages. What is answered is the first that fails, and where.
pub fn read_module_files<'a>(
    alloc: Global,
    files: &'a [SourceFile],
) -> Result<ReadModule<'a>, ReadFault>
    requires count { length files.now < 2 ^ 32 }
    requires small { All (λ f. length f.bytes ≤ MAX_FILE_BYTES) files.now }
    ensures read { IfOk result (IsReadFrom files.now) }
    ensures refused { IfErr result (Refuses (sources_of files.now)) }
{
    let home = match find_module(alloc, files) {
        Ok(home) => home,
        Err(error) => return Err(ReadFault::Module(error)),
    };
    let files = match scan_files(alloc, files) {
        Ok(files) => files,
        Err(fault) => return Err(fault),
    };
    if let Err(fault) = check_tokens(&files) {
        return Err(fault);
    }
    let trees = match parse_files(alloc, &files) {
        Ok(trees) => trees,
        Err(fault) => return Err(fault),
    };
    match build(alloc, &home, trees) {
        Ok(graph) => Ok(ReadModule { home, graph, files }),
        Err(error) => Err(ReadFault::Module(error)),
    }
}
