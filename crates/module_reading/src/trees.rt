//! The trees of all files.

ghost use Rattle.std.specs.Prelude.{◌<◌, ◌^◌, All, IfErr, IfOk, length};
ghost use Rattle.module_texts.specs.Files.{IsScanned, IsTreeOf, AreTreesOf};
ghost use Rattle.module_texts.specs.Refusals.{HasWords, IsShallow, IsUnread, RefusesTrees};

use go_parse::{ParseError, parse};
use go_tree::{MAX_FILE_BYTES, Text};
use module_texts::{ReadFault, ScannedFile, TextFault};
use pkg_graph::{GraphError, SourceTree};
use std::alloc::Global;

/// The tree of a file, which is the one of this number, with a copy of its path.
fn parse_file(alloc: Global, number: u32, scanned: &ScannedFile) -> Result<SourceTree, ReadFault>
    requires scanned { IsScanned scanned.now }
    requires words { HasWords scanned.now }
    requires shallow { IsShallow scanned.now }
    ensures read { IfOk result (λ t. IsTreeOf scanned.now t) }
    ensures refused { IfErr result (IsUnread number scanned.now) }
{
    match parse(alloc, scanned.file.bytes.items(), &scanned.tokens) {
        Ok(tree) => {
            let path = Text::copied(alloc, scanned.file.path.items())?;
            Ok(SourceTree { path, tree })
        }
        Err(ParseError::NotRead(at)) => Err(ReadFault::Text {
            file: number,
            fault: TextFault::NotRead(at),
        }),
        Err(ParseError::NoMemory) => Err(ReadFault::Module(GraphError::NoMemory)),
    }
}

/// The trees of the files, up to the first that has none.
pub(crate) fn parse_files(
    alloc: Global,
    files: &[ScannedFile],
) -> Result<Vec<SourceTree>, ReadFault>
    requires count { length files.now < 2 ^ 32 }
    requires scanned { All IsScanned files.now }
    requires words { All HasWords files.now }
    requires shallow { All IsShallow files.now }
    ensures read { IfOk result (λ trees. AreTreesOf files.now trees.items) }
    ensures refused { IfErr result (RefusesTrees files.now) }
{
    let mut trees = Vec::new(alloc);
    for (number, scanned) in files.iter().enumerate() {
        let tree = match parse_file(alloc, number as u32, scanned) {
            Ok(tree) => tree,
            Err(fault) => return Err(fault),
        };
        trees.push(tree)?;
    }
    Ok(trees)
}
