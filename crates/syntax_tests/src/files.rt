//! Trees of whole files, read of their text.

ghost use Rattle.std.specs.Prelude.{◌≤◌, None, length};
ghost use Rattle.go_tree.specs.GoWords.Tokens.{TokensOf};
ghost use Rattle.go_scan.specs.Unsupported.{IsFirst, unsupported_spans};

use go_nesting::{MAX_LIMIT, weight_over};
use go_parse::parse;
use go_scan::{Tokens, scan, unsupported};
use go_syntax::{FileTree, MAX_FILE_BYTES};
use std::alloc::Global;
use std::test::Fail;

/// The tree of a file's text, or why the test fails.
pub(crate) fn read(alloc: Global, text: &[u8]) -> Result<FileTree, Fail> {
    if text.len() > MAX_FILE_BYTES as usize {
        return Err(Fail::new("a large text"));
    }
    let tokens = scan(alloc, text)?;
    match unsupported(text, &tokens) {
        Some(_) => Err(Fail::new("a word that isn't supported")),
        None => shallow(alloc, text, &tokens),
    }
}

fn shallow(alloc: Global, text: &[u8], tokens: &Tokens) -> Result<FileTree, Fail>
    requires small { length text.now ≤ MAX_FILE_BYTES }
    requires words { TokensOf text.now tokens.now.items tokens.now.comments }
    requires supported { IsFirst (unsupported_spans text.now tokens.now.items tokens.now.comments) None }
{
    match weight_over(tokens, MAX_LIMIT) {
        Some(_) => Err(Fail::new("too deep")),
        None => Ok(parse(alloc, text, tokens)?),
    }
}
