//! Uses of marked constants.

ghost use Rattle.std.specs.Prelude.{◌≡◌, ◌++◌, List, map, IfOk, OnOk};
ghost use Rattle.go_tree.specs.declared.spans.Span.{Span};
ghost use Rattle.go_tree.specs.FileView.{decl_of};
ghost use Rattle.pkg_graph.specs.Package as pure;
ghost use Rattle.run_rules.specs.Programs.{numbered};
ghost use Rattle.run_rules.specs.Sites as sites;
ghost use Rattle.member_uses.specs.Laws.{mark_used};
ghost use Rattle.member_uses.specs.Views.{names_in};
ghost use Rattle.module_marks.specs.Tables.{IsTableOf};
ghost use Rattle.repeated_parts.specs.UsesRepeated.Views.{flagged_of};
ghost use Rattle.repeated_parts.specs.UseSearch.UsesOfMarks.Uses.{PlacedMark, placed_if, placed_in, decl_uses, decls_uses};
ghost use Rattle.repeated_parts.specs.UseSearch.UsesOfMarks.Views.{placed_of};

use crate::literal_types::TypeScopes;
use crate::{FlaggedUse, repeated_parts, repeated_uses};
use file_names::MarkRef;
use go_tree::{Decl, NoMemory, Span};
use member_uses::possible_uses::decl_parts;
use module_marks::MarkTable;
use std::alloc::Global;

/// A use of a marked constant: the number of the declaration of its file in which it stands, where it stands, the marked
/// constant, and whether a later member of a group of constants in a function repeats the expression in which it stands
/// (Go specification, Constant declarations).
#[derive(Clone, Copy, Debug)]
pub struct MarkedUse {
    pub decl: usize,
    pub span: Span,
    pub mark: MarkRef,
    pub repeated: bool,
}

/// Adds the use in the declaration with this number, where its member is marked.
fn add_use(
    table: &MarkTable,
    decl: usize,
    use_: &FlaggedUse,
    uses: &mut Vec<MarkedUse>,
) -> Result<(), NoMemory>
    ensures { OnOk result ((ps : List (pure.Package Span)) (marks : List sites.MarkRef) → IsTableOf ps marks table.now
        → map placed_of uses.new.items ≡ map placed_of uses.old.items
        ++ placed_if decl (flagged_of use_.now) (mark_used ps marks (flagged_of use_.now).0)) }
{
    match table.marked_member(use_.of.package, use_.of.name.items()) {
        None => Ok(()),
        Some(mark) => {
            uses.push(MarkedUse {
                decl,
                span: use_.of.span,
                mark,
                repeated: use_.repeated,
            })?;
            Ok(())
        }
    }
}

/// Adds those of the uses in the declaration with this number whose members are marked.
fn add_uses(
    table: &MarkTable,
    decl: usize,
    found: &[FlaggedUse],
    uses: &mut Vec<MarkedUse>,
) -> Result<(), NoMemory>
    ensures { OnOk result ((ps : List (pure.Package Span)) (marks : List sites.MarkRef) → IsTableOf ps marks table.now
        → map placed_of uses.new.items ≡ map placed_of uses.old.items
        ++ placed_in ps marks decl (map flagged_of found.now)) }
{
    for use_ in found {
        add_use(table, decl, use_, uses)?;
    }
    Ok(())
}

/// Adds the uses in the declaration with this number.
fn add_decl(
    alloc: Global,
    table: &MarkTable,
    scopes: &TypeScopes,
    number: usize,
    decl: &Decl,
    uses: &mut Vec<MarkedUse>,
) -> Result<(), NoMemory>
    ensures { OnOk result ((ps : List (pure.Package Span)) (marks : List sites.MarkRef) → IsTableOf ps marks table.now
        → map placed_of uses.new.items ≡ map placed_of uses.old.items
        ++ decl_uses (λ s. s) ps marks (names_in scopes.now.file) scopes.now.types.now (number, decl_of decl.now)) }
{
    let parts = decl_parts(alloc, decl)?;
    let flags = repeated_parts(alloc, scopes, decl)?;
    let found = repeated_uses(alloc, &scopes.file, &parts, &flags)?;
    add_uses(table, number, &found, uses)?;
    Ok(())
}

/// The uses of marked constants in the declarations of a file with these names, in the order in which a run looks at
/// them: declaration by declaration, and in each by their ends (Go specification, Constant declarations; Declarations and
/// scope). A name that is a key of a composite literal is no use where it names a field, as the table of declared types
/// tells (Composite literals). An error where memory is refused.
///
/// Linear in the declarations, with two look-ups for each part that may be a use, and one for each literal.
pub fn marked_uses(
    alloc: Global,
    table: &MarkTable,
    scopes: &TypeScopes,
    decls: &[Decl],
) -> Result<Vec<MarkedUse>, NoMemory>
    ensures { IfOk result (λ uses. (ps : List (pure.Package Span)) (marks : List sites.MarkRef)
        → IsTableOf ps marks table.now
        → map placed_of uses.items
        ≡ decls_uses (λ s. s) ps marks (names_in scopes.now.file) scopes.now.types.now (numbered (map decl_of decls.now))) }
{
    let mut uses = Vec::new(alloc);
    for (number, decl) in decls.iter().enumerate() {
        add_decl(alloc, table, scopes, number, decl, &mut uses)?;
    }
    Ok(uses)
}
