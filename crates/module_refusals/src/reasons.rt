//! The first reason why files are no module.

ghost use Rattle.std.specs.Prelude.{◌≡◌, ◌<◌, ◌≤◌, ◌^◌, ℕ, All, IfOk, IfSome, MatchOption};
ghost use Rattle.std.specs.Prelude.{length};
ghost use Rattle.module_texts.specs.Files.{go_files, sources_of};
ghost use Rattle.module_texts.specs.Modules.{Refuses, RefusesModule};
ghost use Rattle.module_refusals.specs.Refused.{AreModule, IsBelow, IsRefusal};
ghost use Rattle.module_refusals.specs.Told.{OfFile, Tells, TellsModule, fault_at, fault_detail, told_at, told_whole};

use crate::files::go_file;
use crate::names::package_name;
use crate::texts::{bytes_in, place_of};
use go_tree::{MAX_FILE_BYTES, NoMemory, Text};
use module_reading::read_module_files;
use module_texts::{ReadFault, TextFault};
use pkg_graph::GraphError;
use refusals::{Detail, Refusal};
use source_files::SourceFile;
use std::alloc::{AllocError, Global};

/// What is told of the module as a whole, and of no file.
pub fn of_whole(detail: Detail) -> Refusal
    ensures { result ≡ told_whole detail }
{
    Refusal {
        file: None,
        place: None,
        detail,
    }
}

/// What is told of a byte of a file: its index, and the line and the column of the byte. An offset behind the end counts
/// as the end.
pub fn at_byte(file: &SourceFile, offset: u32, detail: Detail) -> Refusal
    requires { length file.now.bytes ≤ MAX_FILE_BYTES }
    ensures { result ≡ told_at file.now offset detail }
{
    Refusal {
        file: Some(file.index),
        place: Some(place_of(file.bytes.items(), offset)),
        detail,
    }
}

/// The byte at which a fault of a text is seen.
fn offset_of(fault: TextFault) -> u32
    ensures { result ≡ fault_at fault }
{
    match fault {
        TextFault::NotUtf8(at)
        | TextFault::BadToken(at)
        | TextFault::TooDeep(at)
        | TextFault::NotRead(at) => at,
        TextFault::Unsupported(span) => span.start,
    }
}

/// What is told of a fault of a text.
fn detail_of(alloc: Global, text: &[u8], fault: TextFault) -> Result<Detail, NoMemory>
    ensures { IfOk result (λ d. d ≡ fault_detail fault text.now) }
{
    match fault {
        TextFault::NotUtf8(_) => Ok(Detail::NotUtf8),
        TextFault::BadToken(_) => Ok(Detail::BadToken),
        TextFault::Unsupported(span) => Ok(Detail::Unsupported(Text::copied(
            alloc,
            bytes_in(text, span),
        )?)),
        TextFault::TooDeep(_) => Ok(Detail::TooDeep),
        TextFault::NotRead(_) => Ok(Detail::NotRead),
    }
}

/// How a fault of the text of a file is told.
fn tell_text(
    alloc: Global,
    files: &[SourceFile],
    number: u32,
    fault: TextFault,
) -> Result<Refusal, NoMemory>
    requires small { All (λ f. length f.bytes ≤ MAX_FILE_BYTES) files.now }
    requires within { number < length (go_files files.now) }
    ensures { IfOk result (Tells files.now (ReadFault.Text number fault)) }
{
    let file = go_file(files, number);
    let detail = detail_of(alloc, file.bytes.items(), fault)?;
    Ok(at_byte(file, offset_of(fault), detail))
}

/// How a fault of an import of a file is told.
fn tell_import(files: &[SourceFile], number: u32, offset: u32, detail: Detail) -> Refusal
    requires small { All (λ f. length f.bytes ≤ MAX_FILE_BYTES) files.now }
    requires within { number < length (go_files files.now) }
    ensures { OfFile files.now number (λ f. result ≡ told_at f offset detail) }
{
    at_byte(go_file(files, number), offset, detail)
}

/// How it is told that a file's package is named otherwise than its folder's.
fn tell_mixed(
    alloc: Global,
    files: &[SourceFile],
    number: u32,
    offset: u32,
) -> Result<Refusal, NoMemory>
    requires small { All (λ f. length f.bytes ≤ MAX_FILE_BYTES) files.now }
    requires fault { RefusesModule (sources_of files.now) (GraphError.MixedPackage number offset) }
    ensures { IfOk result (TellsModule files.now (GraphError.MixedPackage number offset)) }
{
    let file = go_file(files, number);
    let name = package_name(alloc, file.bytes.items())?;
    Ok(at_byte(file, offset, Detail::MixedPackage(name)))
}

/// How it is told what is wrong with `go.mod` or the packages.
fn tell_module(alloc: Global, files: &[SourceFile], error: GraphError) -> Result<Refusal, NoMemory>
    requires small { All (λ f. length f.bytes ≤ MAX_FILE_BYTES) files.now }
    requires fault { RefusesModule (sources_of files.now) error }
    ensures { IfOk result (TellsModule files.now error) }
{
    match error {
        GraphError::NoModuleLine => Ok(of_whole(Detail::NoModuleLine)),
        GraphError::OldGo(version) => Ok(of_whole(Detail::OldGo(version))),
        GraphError::MixedPackage { file, at } => tell_mixed(alloc, files, file, at),
        GraphError::NoPackage { file, at, path } => {
            Ok(tell_import(files, file, at, Detail::NoPackage(path)))
        }
        GraphError::Cycle(path) => Ok(of_whole(Detail::Cycle(path))),
        GraphError::Internal { file, at, path } => {
            Ok(tell_import(files, file, at, Detail::Internal(path)))
        }
        GraphError::NoMemory => Err(AllocError),
    }
}

/// How a reason is told.
fn tell(alloc: Global, files: &[SourceFile], fault: ReadFault) -> Result<Refusal, NoMemory>
    requires small { All (λ f. length f.bytes ≤ MAX_FILE_BYTES) files.now }
    requires fault { Refuses (sources_of files.now) fault }
    ensures told { IfOk result (IsRefusal files.now) }
{
    match fault {
        ReadFault::Text { file, fault } => tell_text(alloc, files, file, fault),
        ReadFault::Module(error) => tell_module(alloc, files, error),
    }
}

/// Why the files of a folder are no module: the first reason, where the checks come in the order of
/// `read_module_files`, with the file's index and the place in it. None where they are a module.
pub fn first_refusal(alloc: Global, files: &[SourceFile]) -> Result<Option<Refusal>, NoMemory>
    requires count { length files.now < 2 ^ 32 }
    requires small { All (λ f. length f.bytes ≤ MAX_FILE_BYTES) files.now }
    ensures found { IfOk result (λ r. MatchOption r (AreModule files.now) (IsRefusal files.now)) }
    ensures below { IfOk result (λ r. IfSome r
        (λ x. (n : ℕ) → All (λ f. f.index < n) files.now → IsBelow n x.file)) }
{
    match read_module_files(alloc, files) {
        Ok(_) => Ok(None),
        Err(fault) => Ok(Some(tell(alloc, files, fault)?)),
    }
}
