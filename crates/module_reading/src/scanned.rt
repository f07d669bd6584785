//! The tokens of all files.

ghost use Rattle.std.specs.Prelude.{◌≡◌, ◌≢◌, ◌≤◌, ◌<◌, ◌^◌, All, IfErr, IfOk, length};
ghost use Rattle.go_tree.specs.GoWords.Tokens.{TokensOf};
ghost use Rattle.pkg_graph.specs.declared.module_files.faults.GraphError.TheVariants.{NoMemory};
ghost use Rattle.module_texts.specs.Files.{AreScanned, IsScanned, go_files};
ghost use Rattle.module_texts.specs.Refusals.{Fails, IsOfScan, RefusesScan};
ghost use Rattle.module_texts.specs.declared.faults.ReadFault.TheVariants.{Module};

use go_scan::{ScanError, scan};
use go_tree::MAX_FILE_BYTES;
use module_texts::{ReadFault, ScannedFile, TextFault, is_go_file};
use pkg_graph::GraphError;
use source_files::SourceFile;
use std::alloc::Global;

/// The tokens of a file, which is the one of this number.
fn scan_file<'a>(
    alloc: Global,
    number: u32,
    file: &'a SourceFile,
) -> Result<ScannedFile<'a>, ReadFault>
    requires { length file.now.bytes ≤ MAX_FILE_BYTES }
    ensures same { IfOk result (λ s. s.file.now ≡ file.now) }
    ensures scanned { IfOk result IsScanned }
    ensures refused { IfErr result (IsOfScan number file.now) }
{
    match scan(alloc, file.bytes.items()) {
        Ok(tokens) => Ok(ScannedFile { file, tokens }),
        Err(ScanError::NotUtf8(at)) => Err(ReadFault::Text {
            file: number,
            fault: TextFault::NotUtf8(at),
        }),
        Err(ScanError::BadToken(at)) => Err(ReadFault::Text {
            file: number,
            fault: TextFault::BadToken(at),
        }),
        Err(ScanError::NoMemory) => Err(ReadFault::Module(GraphError::NoMemory)),
    }
}

/// The files of Go source with their tokens, up to the first that has none.
pub(crate) fn scan_files<'a>(
    alloc: Global,
    files: &'a [SourceFile],
) -> Result<Vec<ScannedFile<'a>>, ReadFault>
    requires count { length files.now < 2 ^ 32 }
    requires small { All (λ f. length f.bytes ≤ MAX_FILE_BYTES) files.now }
    ensures scanned { IfOk result (λ list. AreScanned (go_files files.now) list.items) }
    ensures refused { IfErr result (RefusesScan (go_files files.now)) }
{
    let mut list = Vec::new(alloc);
    for file in files {
        if !is_go_file(file) {
            continue;
        }
        let number = list.len() as u32;
        let scanned = match scan_file(alloc, number, file) {
            Ok(scanned) => scanned,
            Err(fault) => return Err(fault),
        };
        list.push(scanned)?;
    }
    Ok(list)
}
