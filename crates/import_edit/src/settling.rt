//! The edits that settle a file's imports.

ghost use Rattle.std.specs.Prelude.{◌≡◌, ◌≤◌, ◌<◌, ◌++◌, ◌∷◌, [], List, map, IfOk, length};
ghost use Rattle.go_tree.specs.declared.tokens.Comment.{Comment};
ghost use Rattle.go_tree.specs.declared.tokens.Token.{Token};
ghost use Rattle.go_tree.specs.FileView.{file_of};
ghost use Rattle.go_tree.specs.GoWords.Tokens.{TokensOf};
ghost use Rattle.text_edits.specs.Order.{InOrder};
ghost use Rattle.run_rules.specs.ImportRules.Laid.{CommentsAscend, Laid};
ghost use Rattle.run_rules.specs.ImportRules.Settled.{removal, settled};
ghost use Rattle.splice_laws.specs.ImportSplices.ImportPlaces.ReadFiles.{ReadsImportsOf};

use crate::added::{adds_to_group, group_insertion, insertion_before, last_closing, push_removals};
use crate::order::in_order;
use crate::removed::{Source, removed_ranges};
use crate::span_set::SpanSet;
use go_scan::scan;
use go_tree::{Comment, FileTree, MAX_FILE_BYTES, NoMemory, Span, Token};
use run_rules::import_rules::NewImport;
use std::alloc::{AllocError, Global};
use text_edits::{Edit, Edits};

fn removals(alloc: Global, ranges: &[Span]) -> Result<Edits, NoMemory>
    requires { InOrder (map removal ranges.now) }
    ensures { IfOk result (λ es. es ≡ map removal ranges.now) }
{
    let mut edits = Edits::new(alloc);
    push_removals(alloc, &mut edits, ranges)?;
    Ok(edits)
}

fn removals_and_one(alloc: Global, ranges: &[Span], last: Edit) -> Result<Edits, NoMemory>
    requires { InOrder (map removal ranges.now ++ last ∷ []) }
    ensures { IfOk result (λ es. es ≡ map removal ranges.now ++ last ∷ []) }
{
    let mut edits = Edits::new(alloc);
    push_removals(alloc, &mut edits, ranges)?;
    edits.push(last)?;
    Ok(edits)
}

fn one_and_removals(alloc: Global, first: Edit, ranges: &[Span]) -> Result<Edits, NoMemory>
    requires { InOrder (first ∷ map removal ranges.now) }
    ensures { IfOk result (λ es. es ≡ first ∷ map removal ranges.now) }
{
    let mut edits = Edits::new(alloc);
    edits.push(first)?;
    push_removals(alloc, &mut edits, ranges)?;
    Ok(edits)
}

// The edits that remove specs and add imports, of which there is one.
fn settle_added(
    alloc: Global,
    source: &Source,
    file: &FileTree,
    added: &[NewImport],
) -> Result<Edits, NoMemory>
    requires size { length source.now.text.now ≤ MAX_FILE_BYTES }
    requires laid { Laid source.now.text.now source.now.tokens.now (file_of file.now) }
    requires ascend { CommentsAscend 0 source.now.comments.now }
    requires some { 0 < length added.now }
    ensures { IfOk result (λ es. es ≡ settled source.now.text.now source.now.tokens.now source.now.comments.now
        (file_of file.now) added.now source.now.unused.now) }
{
    let decls = file.imports.items();
    let grows = adds_to_group(source.text, decls);
    let ranges = removed_ranges(alloc, source, decls, grows)?;
    let added = in_order(alloc, added)?;
    if grows {
        let last = group_insertion(alloc, last_closing(source.text, decls), &added)?;
        let edits = removals_and_one(alloc, &ranges, last)?;
        Ok(edits)
    } else {
        let first = insertion_before(alloc, file, &ranges, &added)?;
        let edits = one_and_removals(alloc, first, &ranges)?;
        Ok(edits)
    }
}

fn settle_source(
    alloc: Global,
    source: &Source,
    file: &FileTree,
    added: &[NewImport],
) -> Result<Edits, NoMemory>
    requires size { length source.now.text.now ≤ MAX_FILE_BYTES }
    requires laid { Laid source.now.text.now source.now.tokens.now (file_of file.now) }
    requires ascend { CommentsAscend 0 source.now.comments.now }
    ensures { IfOk result (λ es. es ≡ settled source.now.text.now source.now.tokens.now source.now.comments.now
        (file_of file.now) added.now source.now.unused.now) }
{
    if added.is_empty() {
        let ranges = removed_ranges(alloc, source, file.imports.items(), false)?;
        let edits = removals(alloc, &ranges)?;
        Ok(edits)
    } else {
        settle_added(alloc, source, file, added)
    }
}

/// The edits that settle a file's imports, for a text with these tokens and comments: the specs with the spans of
/// `unused` go, and `added` come, ordered by path and then name (Go specification, Import declarations). An error where
/// memory is refused. Linear in the text, its tokens, comments and imports; quadratic in the number of added imports.
pub fn settle_scanned(
    alloc: Global,
    text: &[u8],
    tokens: &[Token],
    comments: &[Comment],
    file: &FileTree,
    added: &[NewImport],
    unused: &[Span],
) -> Result<Edits, NoMemory>
    requires size { length text.now ≤ MAX_FILE_BYTES }
    requires laid { Laid text.now tokens.now (file_of file.now) }
    requires ascend { CommentsAscend 0 comments.now }
    ensures { IfOk result (λ es. es
        ≡ settled text.now tokens.now comments.now (file_of file.now) added.now unused.now) }
{
    let unused = SpanSet::of(alloc, unused)?;
    let source = Source {
        text,
        tokens,
        comments,
        unused: &unused,
    };
    let edits = settle_source(alloc, &source, file, added)?;
    Ok(edits)
}

/// The same for a text that reads as a file with this package name and these imports, where their spans say: its tokens
/// and comments are found first. Linear in the text.
pub fn settle(
    alloc: Global,
    text: &[u8],
    file: &FileTree,
    added: &[NewImport],
    unused: &[Span],
) -> Result<Edits, NoMemory>
    requires size { length text.now ≤ MAX_FILE_BYTES }
    requires reads { ReadsImportsOf text.now (file_of file.now) }
    ensures { IfOk result (λ es. (tokens : List Token) (comments : List Comment) → TokensOf text.now tokens comments
        → es ≡ settled text.now tokens comments (file_of file.now) added.now unused.now) }
{
    let Ok(scanned) = scan(alloc, text) else {
        // A text that reads has tokens, so what is refused is memory.
        return Err(AllocError);
    };
    let edits = settle_scanned(
        alloc,
        text,
        scanned.items(),
        scanned.comments(),
        file,
        added,
        unused,
    )?;
    Ok(edits)
}
