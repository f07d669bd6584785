//! The imports of a file after some come and others go (Go specification, Import declarations).

ghost use Rattle.std.specs.Prelude.{◌≤◌, length};
ghost use Rattle.go_tree.specs.FileView.{file_of};
ghost use Rattle.go_nesting.specs.Sources.{IsSource};

use crate::blocks::last_element;
use crate::tree::write_fault;
use bstr::ByteSlice;
use go_parse::{Source, read_file};
use go_tree::{FileTree, MAX_FILE_BYTES, Name, NoMemory, Span, Text};
use import_edit::{NewImport, settle};
use std::alloc::Global;
use std::io::{self, Write};
use text_edits::apply;

/// The import that a word `+PATH` or `+NAME=PATH` asks for, of which this stands behind the sign. Where no name is given
/// the package is called as the last element of its path.
fn new_import(alloc: Global, word: &[u8]) -> Result<NewImport, NoMemory> {
    let (name, path, spelled) = match word.split_once_str(b"=") {
        Some((name, path)) => (name, path, true),
        None => (last_element(word), word, false),
    };
    Ok(NewImport {
        name: Name::copied(alloc, name)?,
        path: Text::copied(alloc, path)?,
        spelled,
    })
}

fn new_imports(alloc: Global, words: &[String]) -> Result<Vec<NewImport>, NoMemory> {
    let mut list = Vec::new(alloc);
    for word in words {
        if let Some(word) = word.as_bytes().strip_prefix(b"+".as_slice()) {
            list.push(new_import(alloc, word)?)?;
        }
    }
    Ok(list)
}

/// Whether a word `-PATH` names the path.
fn goes(path: &[u8], words: &[String]) -> bool {
    for word in words {
        if word.as_bytes().strip_prefix(b"-".as_slice()) == Some(path) {
            return true;
        }
    }
    false
}

/// Where the imports stand that go.
fn unused_imports(alloc: Global, file: &FileTree, words: &[String]) -> Result<Vec<Span>, NoMemory> {
    let mut list = Vec::new(alloc);
    for decl in file.imports.items() {
        for spec in decl.specs.items() {
            if goes(spec.path.items(), words) {
                list.push(spec.span)?;
            }
        }
    }
    Ok(list)
}

/// The text with these imports settled.
fn settled(
    alloc: Global,
    text: &[u8],
    source: &Source,
    added: &[NewImport],
    unused: &[Span],
) -> Result<Vec<u8>, NoMemory>
    requires size { length text.now ≤ MAX_FILE_BYTES }
    requires read { IsSource text.now source.now.tokens.items source.now.tokens.comments (file_of source.now.tree) }
{
    let edits = settle(alloc, text, &source.tree, added, unused)?;
    apply(alloc, text, &edits)
}

/// The text of a file that is read with its imports settled as words ask.
fn new_text(
    alloc: Global,
    text: &[u8],
    source: &Source,
    words: &[String],
) -> Result<Vec<u8>, NoMemory>
    requires size { length text.now ≤ MAX_FILE_BYTES }
    requires read { IsSource text.now source.now.tokens.items source.now.tokens.comments (file_of source.now.tree) }
{
    let added = new_imports(alloc, words)?;
    let unused = unused_imports(alloc, &source.tree, words)?;
    settled(alloc, text, source, &added, &unused)
}

/// Writes the text of a file that is read with its imports settled.
fn write_settled<W: Write>(
    alloc: Global,
    out: &mut W,
    text: &[u8],
    source: &Source,
    words: &[String],
) -> io::Result<()>
    requires size { length text.now ≤ MAX_FILE_BYTES }
    requires read { IsSource text.now source.now.tokens.items source.now.tokens.comments (file_of source.now.tree) }
{
    let text = new_text(alloc, text, source, words)?;
    out.write_all(&text)
}

/// Writes a file in which an import comes for each word `+PATH` or `+NAME=PATH`, and those go whose path a word `-PATH`
/// names; of a file without a tree why it has none.
pub fn write_imports<W: Write>(
    alloc: Global,
    out: &mut W,
    text: &[u8],
    words: &[String],
) -> io::Result<()>
    requires { length text.now ≤ MAX_FILE_BYTES }
{
    match read_file(alloc, text) {
        Ok(source) => write_settled(alloc, out, text, &source, words),
        Err(fault) => write_fault(out, &fault),
    }
}
