//! Where imports are added, and as which bytes (Go specification, Import declarations; Source file organization).

ghost use Rattle.std.specs.Prelude.{◌≡◌, ◌≤◌, ◌<◌, ◌++◌, ◌∷◌, [], codes, length, map, IfOk};
ghost use Rattle.std.specs.Prelude.{OnOk};
ghost use Rattle.go_tree.specs.FileView.{import_decl_of};
ghost use Rattle.text_edits.specs.Order.{InOrder};
ghost use Rattle.run_rules.specs.ImportRules.Added.{Addition, adds_to_group, closing, each_within, is_open_group, last_closing};
ghost use Rattle.run_rules.specs.ImportRules.Settled.{insertion, removal};
ghost use Rattle.import_edit.specs.Fronts.{LastFits, addition_before, first_addition, front_addition, group_addition};
ghost use Rattle.import_edit.specs.Fronts.{least_start};
ghost use Rattle.import_edit.specs.Order.{imports_of};

use crate::lines::blank_start;
use crate::spec_text::write_spec;
use go_tree::{FileTree, ImportDecl, NoMemory, Span, Text};
use run_rules::import_rules::NewImport;
use std::alloc::Global;
use text_edits::{Edit, Edits};

fn is_open_group(text: &[u8], decl: &ImportDecl) -> bool
    requires some { 0 < decl.now.span.end }
    requires within { decl.now.span.end ≤ length text.now }
    ensures { result ≡ is_open_group text.now (import_decl_of decl.now) }
{
    decl.grouped && blank_start(text, decl.span.end as usize - 1).is_some()
}

/// Whether specs are added to the last import declaration: it is a group whose `)` has only blanks before it on its
/// line.
pub(crate) fn adds_to_group(text: &[u8], decls: &[ImportDecl]) -> bool
    requires { LastFits (length text.now) (map import_decl_of decls.now) }
    ensures { result ≡ adds_to_group text.now (map import_decl_of decls.now) }
{
    !decls.is_empty() && is_open_group(text, &decls[decls.len() - 1])
}

/// Where the `)` of the last declaration stands.
pub(crate) fn last_closing(text: &[u8], decls: &[ImportDecl]) -> u32
    requires { LastFits (length text.now) (map import_decl_of decls.now) }
    ensures { result ≡ last_closing (map import_decl_of decls.now) }
{
    if decls.is_empty() {
        0
    } else {
        decls[decls.len() - 1].span.end - 1
    }
}

/// The start of a declaration, or of the first range where that is less.
fn least_start(at: u32, ranges: &[Span]) -> u32
    ensures { result ≡ least_start at ranges.now }
{
    match ranges {
        [range, ..] => at.min(range.start),
        [] => at,
    }
}

/// Writes each of the imports behind some bytes and before others.
fn write_each(
    out: &mut Vec<u8>,
    before: &[u8],
    behind: &[u8],
    added: &[&NewImport],
) -> Result<(), NoMemory>
    ensures { OnOk result (out.new.items ≡ out.old.items ++ each_within before.now behind.now (imports_of added.now)) }
{
    for import in added {
        out.extend_from_slice(before)?;
        write_spec(out, import)?;
        out.extend_from_slice(behind)?;
    }
    Ok(())
}

fn insertion(at: u32, text: Vec<u8>) -> Edit
    ensures { result ≡ insertion (record { at = at; text = text.items }) }
{
    Edit {
        span: Span { start: at, end: at },
        text: Text::of(text),
    }
}

/// The imports, each within a line of the group whose `)` stands there.
pub(crate) fn group_insertion(
    alloc: Global,
    at: u32,
    added: &[&NewImport],
) -> Result<Edit, NoMemory>
    ensures { IfOk result (λ e. e ≡ insertion (group_addition at (imports_of added.now))) }
{
    let mut text = Vec::new(alloc);
    write_each(&mut text, b"\t", b"\n", added)?;
    Ok(insertion(at, text))
}

/// The imports, each in a line of its own before the declaration that starts there.
fn front_insertion(alloc: Global, at: u32, added: &[&NewImport]) -> Result<Edit, NoMemory>
    ensures { IfOk result (λ e. e ≡ insertion (front_addition at (imports_of added.now))) }
{
    let mut text = Vec::new(alloc);
    write_each(&mut text, b"import ", b"\n", added)?;
    Ok(insertion(at, text))
}

/// The imports, each in a line of its own behind the package name that ends there, with an empty line between.
fn first_insertion(alloc: Global, at: u32, added: &[&NewImport]) -> Result<Edit, NoMemory>
    ensures { IfOk result (λ e. e ≡ insertion (first_addition at (imports_of added.now))) }
{
    let mut text = Vec::new(alloc);
    text.push(b'\n')?;
    write_each(&mut text, b"\nimport ", b"", added)?;
    Ok(insertion(at, text))
}

/// The imports before the first declaration and all ranges, or behind the package name.
pub(crate) fn insertion_before(
    alloc: Global,
    file: &FileTree,
    ranges: &[Span],
    added: &[&NewImport],
) -> Result<Edit, NoMemory>
    ensures { IfOk result (λ e. e ≡ insertion (addition_before file.now.package.span.end
        (map import_decl_of file.now.imports) ranges.now (imports_of added.now))) }
{
    match file.imports.items() {
        [decl, ..] => front_insertion(alloc, least_start(decl.span.start, ranges), added),
        [] => first_insertion(alloc, file.package.span.end, added),
    }
}

/// Adds the edits that remove the ranges.
pub(crate) fn push_removals(
    alloc: Global,
    edits: &mut Edits,
    ranges: &[Span],
) -> Result<(), NoMemory>
    requires { InOrder (edits.old ++ map removal ranges.now) }
    ensures { OnOk result (edits.new ≡ edits.old ++ map removal ranges.now) }
{
    for range in ranges {
        edits.push(Edit {
            span: *range,
            text: Text::of(Vec::new(alloc)),
        })?;
    }
    Ok(())
}
