//! Searches for the first use that is free.

ghost use Rattle.std.specs.Prelude.{◌≡◌, List, IfOk, map};
ghost use Rattle.go_tree.specs.declared.spans.Span.{Span};
ghost use Rattle.go_tree.specs.FileView.{file_of};
ghost use Rattle.run_rules.specs.ImportRules.Laid.{CommentsAscend};
ghost use Rattle.scope_tables.specs.Table.{IsTableOf, table_of};
ghost use Rattle.pkg_graph.specs.Package as pure;
ghost use Rattle.run_rules.specs.Sites as sites;
ghost use Rattle.module_marks.specs.Tables as marks_table;
ghost use Rattle.repeated_parts.specs.UseSearch.Search.{IsLooked, IsSearched, IsFileSearch};

use crate::literal_types::TypeScopes;
use crate::use_search::answers::answer;
use crate::use_search::uses_of_marks::{MarkedUse, marked_uses};
use crate::use_search::views::{FileView, ProgramView};
use constant_forms::{ConstantForm, Obstacle, ReducedConstant};
use go_tree::NoMemory;
use member_uses::FileScopes;
use module_marks::MarkTable;
use std::alloc::Global;

/// A use that is free, and the form that it becomes.
#[derive(Drop)]
pub struct FoundForm {
    pub use_: MarkedUse,
    pub form: ConstantForm,
}

/// A use that is kept, and by what.
#[derive(Drop)]
pub struct FoundObstacle {
    pub use_: MarkedUse,
    pub obstacle: Obstacle,
}

/// What a search finds: the uses that are kept, in their order, up to the first that is free.
#[derive(Drop)]
pub struct Searched {
    pub kept: Vec<FoundObstacle>,
    pub free: Option<FoundForm>,
}

/// Looks at a use: adds it to those that are kept, or answers it where it is free.
fn look(
    alloc: Global,
    program: &ProgramView,
    file: &FileView,
    use_: &MarkedUse,
    kept: &mut Vec<FoundObstacle>,
) -> Result<Option<FoundForm>, NoMemory>
    requires table { IsTableOf file.now.names.now (file_of file.now.tree.now) (table_of file.now.scopes.now) }
    requires ascend { CommentsAscend 0 file.now.comments.now }
    ensures { IfOk result (IsLooked program.now file.now use_.now kept.old.items kept.new.items) }
{
    match answer(alloc, program, file, use_)? {
        None => Ok(None),
        Some(ReducedConstant::Becomes(form)) => Ok(Some(FoundForm { use_: *use_, form })),
        Some(ReducedConstant::Kept(obstacle)) => {
            kept.push(FoundObstacle {
                use_: *use_,
                obstacle,
            })?;
            Ok(None)
        }
    }
}

/// The uses of a file that are kept, in the order of the list, up to the first that is free, with its form (Go
/// specification, Constant declarations). The file has this table of its scopes. An error where memory is refused.
///
/// Each use takes a look-up for its constant, one in the table of scopes and a search among the comments; the form of the
/// free one, where it needs a package, is linear in the file.
pub fn search_uses(
    alloc: Global,
    program: &ProgramView,
    file: &FileView,
    uses: &[MarkedUse],
) -> Result<Searched, NoMemory>
    requires table { IsTableOf file.now.names.now (file_of file.now.tree.now) (table_of file.now.scopes.now) }
    requires ascend { CommentsAscend 0 file.now.comments.now }
    ensures { IfOk result (λ s. IsSearched program.now file.now uses.now s.kept.items s.free) }
{
    let mut kept = Vec::new(alloc);
    for use_ in uses {
        if let Some(free) = look(alloc, program, file, use_, &mut kept)? {
            return Ok(Searched {
                kept,
                free: Some(free),
            });
        }
    }
    Ok(Searched { kept, free: None })
}

/// The same over all uses of marked constants in the file: declaration by declaration, and in each by their ends. An
/// error where memory is refused.
pub fn search_file(
    alloc: Global,
    program: &ProgramView,
    marks: &MarkTable,
    file: &FileView,
) -> Result<Searched, NoMemory>
    requires table { IsTableOf file.now.names.now (file_of file.now.tree.now) (table_of file.now.scopes.now) }
    requires ascend { CommentsAscend 0 file.now.comments.now }
    ensures { IfOk result (λ s. (ps : List (pure.Package Span)) (ms : List sites.MarkRef)
        → marks_table.IsTableOf ps ms marks.now → IsFileSearch ps ms program.now file.now s.kept.items s.free) }
{
    let scopes = TypeScopes {
        file: FileScopes {
            scopes: file.scopes,
            home: file.home,
            imports: file.imports,
        },
        types: program.types,
    };
    let uses = marked_uses(alloc, marks, &scopes, file.tree.decls.items())?;
    let found = search_uses(alloc, program, file, &uses)?;
    Ok(found)
}
