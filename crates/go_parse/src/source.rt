//! A file of Go source, read from its bytes.

ghost use Rattle.std.specs.Prelude.{◌≢◌, ◌≤◌, IfErr, IfOk, None, length};
ghost use Rattle.go_tree.specs.FileView.{file_of};
ghost use Rattle.go_tree.specs.GoWords.Tokens.{TokensOf};
ghost use Rattle.go_nesting.specs.Over.{IsFirstOver};
ghost use Rattle.go_nesting.specs.Sources.{IsSource, IsSupported, IsTree};
ghost use Rattle.go_parse.specs.Sources.{RefusesText, RefusesTokens};

use crate::parser::{ParseError, parse};
use go_nesting::{MAX_LIMIT, weight_over};
use go_scan::{ScanError, Tokens, scan, unsupported};
use go_tree::{FileTree, MAX_FILE_BYTES};
use std::alloc::Global;
use thiserror::Error;

/// A file that is read.
#[derive(Drop)]
pub struct Source {
    /// Its tokens and its comments.
    pub tokens: Tokens,
    pub tree: FileTree,
}

/// Why a text isn't read, in the order in which it is judged, and the byte at which that is seen.
#[derive(Debug, Drop, Error)]
pub enum ReadError {
    #[error("not UTF-8 at byte {0}")]
    NotUtf8(u32),
    #[error("bad token at byte {0}")]
    BadToken(u32),
    #[error("unsupported at byte {0}")]
    Unsupported(u32),
    #[error("too deep at byte {0}")]
    TooDeep(u32),
    #[error("not read at byte {0}")]
    NotRead(u32),
    /// Memory was refused, whatever the text is.
    #[error("out of memory")]
    NoMemory,
}

/// The tokens, comments and tree of a text, or the first reason why it has none, in the order of the steps: its bytes
/// and tokens, its words, its nesting, its grammar (Go specification, Source file organization). Only want of memory
/// says nothing of the text.
pub fn read_file(alloc: Global, text: &[u8]) -> Result<Source, ReadError>
    requires { length text.now ≤ MAX_FILE_BYTES }
    ensures read { IfOk result (λ s. IsSource text.now s.tokens.items s.tokens.comments (file_of s.tree)) }
    ensures refused { IfErr result (λ e. e ≢ ReadError.NoMemory → RefusesText text.now e) }
{
    let tokens = match scan(alloc, text) {
        Ok(tokens) => tokens,
        Err(ScanError::NotUtf8(offset)) => return Err(ReadError::NotUtf8(offset)),
        Err(ScanError::BadToken(offset)) => return Err(ReadError::BadToken(offset)),
        Err(ScanError::NoMemory) => return Err(ReadError::NoMemory),
    };
    match supported(alloc, text, &tokens) {
        Ok(tree) => Ok(Source { tokens, tree }),
        Err(fault) => Err(fault),
    }
}

/// The tree of tokens, if no word is unsupported.
fn supported(alloc: Global, text: &[u8], tokens: &Tokens) -> Result<FileTree, ReadError>
    requires small { length text.now ≤ MAX_FILE_BYTES }
    requires words { TokensOf text.now tokens.now.items tokens.now.comments }
    ensures read { IfOk result (λ f. IsTree text.now tokens.now.items tokens.now.comments (file_of f)) }
    ensures refused { IfErr result
        (λ e. e ≢ ReadError.NoMemory → RefusesTokens text.now tokens.now.items tokens.now.comments e) }
{
    match unsupported(text, tokens) {
        Some(span) => Err(ReadError::Unsupported(span.start)),
        None => shallow(alloc, text, tokens),
    }
}

/// The tree of tokens, if none nests too deeply.
fn shallow(alloc: Global, text: &[u8], tokens: &Tokens) -> Result<FileTree, ReadError>
    requires small { length text.now ≤ MAX_FILE_BYTES }
    requires words { TokensOf text.now tokens.now.items tokens.now.comments }
    requires supported { IsSupported text.now tokens.now.items tokens.now.comments }
    ensures read { IfOk result (λ f. IsTree text.now tokens.now.items tokens.now.comments (file_of f)) }
    ensures refused { IfErr result
        (λ e. e ≢ ReadError.NoMemory → RefusesTokens text.now tokens.now.items tokens.now.comments e) }
{
    match weight_over(tokens, MAX_LIMIT) {
        Some(offset) => Err(ReadError::TooDeep(offset)),
        None => parsed(alloc, text, tokens),
    }
}

fn parsed(alloc: Global, text: &[u8], tokens: &Tokens) -> Result<FileTree, ReadError>
    requires small { length text.now ≤ MAX_FILE_BYTES }
    requires words { TokensOf text.now tokens.now.items tokens.now.comments }
    requires supported { IsSupported text.now tokens.now.items tokens.now.comments }
    requires shallow { IsFirstOver MAX_LIMIT tokens.now.items None }
    ensures read { IfOk result (λ f. IsTree text.now tokens.now.items tokens.now.comments (file_of f)) }
    ensures refused { IfErr result
        (λ e. e ≢ ReadError.NoMemory → RefusesTokens text.now tokens.now.items tokens.now.comments e) }
{
    match parse(alloc, text, tokens) {
        Ok(file) => Ok(file),
        Err(ParseError::NotRead(offset)) => Err(ReadError::NotRead(offset)),
        Err(ParseError::NoMemory) => Err(ReadError::NoMemory),
    }
}
