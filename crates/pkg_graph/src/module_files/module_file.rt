//! The file `go.mod` (Go Modules Reference, go.mod files).

ghost use Rattle.std.specs.Prelude.{◌≡◌, IfOk, IfErr};
ghost use Rattle.std.specs.List.{list_all};
ghost use Rattle.std.specs.Option.{option_copied};
ghost use Rattle.pkg_graph.specs.ModuleFiles.Pieces.{before_comment};
ghost use Rattle.pkg_graph.specs.ModuleFiles.ModuleFile.{argument_of, is_quote, is_path_byte, is_module_path, unquoted};
ghost use Rattle.pkg_graph.specs.ModuleFiles.ModuleFile.{module_path, module_of, is_module};
ghost use Rattle.pkg_graph.specs.ModuleFiles.ModuleFaults.{IsModuleFault};

use crate::module_files::faults::{GraphError, Module};
use crate::module_files::fields::{argument_in, before_comment, has_bytes};
use crate::module_files::version::is_version;
use bstr::ByteSlice;
use go_tree::Text;
use std::alloc::Global;

/// Of the first line of two fields whose first is the name, the second field.
fn argument_of<'a>(name: &[u8], text: &'a [u8]) -> Option<&'a [u8]>
    ensures { option_copied result ≡ argument_of name.now text.now }
{
    for line in text.lines() {
        if let Some(argument) = argument_in(name, before_comment(line)) {
            return Some(argument);
        }
    }
    None
}

fn is_quote(byte: u8) -> bool
    ensures { result ≡ is_quote byte }
{
    byte == b'"' || byte == b'`'
}

fn is_path_byte(byte: u8) -> bool
    ensures { result ≡ is_path_byte byte }
{
    (0x21..=0x7e).contains(&byte) && !is_quote(byte)
}

fn are_path_bytes(path: &[u8]) -> bool
    ensures { result ≡ list_all is_path_byte path.now }
{
    path.iter().all(|byte| is_path_byte(*byte))
}

/// Whether this is the path of a module: one or more printable bytes of ASCII other than blanks and
/// quotes.
pub fn is_module_path(path: &[u8]) -> bool
    ensures { result ≡ is_module_path path.now }
{
    has_bytes(path) && are_path_bytes(path)
}

/// Without a pair of quotes around it.
#[tactic(auto, unfolding(crate::specs::ModuleFiles::ModuleFile::unquoted))]
fn unquoted(bytes: &[u8]) -> &[u8]
    ensures { result.now ≡ unquoted bytes.now }
{
    let Some((quote, rest)) = bytes.split_first() else {
        return bytes;
    };
    if is_quote(*quote) && rest.ends_with(&[*quote]) {
        &rest[..rest.len() - 1]
    } else {
        bytes
    }
}

/// The path of the module.
#[tactic(auto, unfolding(crate::specs::ModuleFiles::ModuleFile::module_path))]
fn module_path(text: &[u8]) -> Option<&[u8]>
    ensures { option_copied result ≡ module_path text.now }
{
    let path = unquoted(argument_of(b"module", text)?);
    if is_module_path(path) {
        Some(path)
    } else {
        None
    }
}

/// The module of which these are the bytes of `go.mod`.
///
/// `NoModuleLine` comes exactly where no line is `module` and a path, `OldGo` exactly where a path is
/// there and no go line with a version from 1.22 on.
#[tactic(auto, unfolding(crate::specs::ModuleFiles::ModuleFile::path_answer, crate::specs::ModuleFiles::ModuleFile::version_answer))]
pub fn read_module(alloc: Global, bytes: &[u8]) -> Result<Module, GraphError>
    ensures found { IfOk result (λ m. module_of bytes.now ≡ is_module m.path) }
    ensures cause { IfErr result (λ e. IsModuleFault bytes.now e) }
{
    let Some(path) = module_path(bytes) else {
        return Err(GraphError::NoModuleLine);
    };
    let Some(version) = argument_of(b"go", bytes) else {
        return Err(GraphError::OldGo(Text::copied(alloc, b"none")?));
    };
    if !is_version(version) {
        return Err(GraphError::OldGo(Text::copied(alloc, version)?));
    }
    Ok(Module {
        path: Text::copied(alloc, path)?,
    })
}
