//! A look at a file.

ghost use Rattle.std.specs.Prelude.{◌≡◌, IfOk};
ghost use Rattle.run_rules.specs.ImportRules.Laid.{CommentsAscend};
ghost use Rattle.file_names.specs.Imports.{FindsPackages};
ghost use Rattle.file_tables.specs.Blocks.{HasOwnTable, block_in};
ghost use Rattle.stepped_programs.specs.PackageSearch.Looks.{IsLook};

use file_names::Places;
use file_tables::{Block, FileTables, file_tables};
use go_scan::Tokens;
use go_tree::NoMemory;
use module_marks::MarkTable;
use pkg_graph::{Package, SourceTree};
use repeated_parts::literal_types::LiteralTypes;
use repeated_parts::use_search::mark_values::ConstantValues;
use repeated_parts::use_search::{FileView, FoundForm, FoundObstacle, ProgramView, search_file};
use std::alloc::Global;

/// What a search is told of a program: its packages, where each stands by its path, which of their declarations are
/// marked, what marked constants are declared as, and the types that they declare.
#[derive(Clone, Copy)]
pub struct ProgramSources<'a> {
    pub packages: &'a [Package],
    pub places: &'a Places,
    pub marks: &'a MarkTable,
    pub values: &'a ConstantValues,
    pub types: &'a LiteralTypes,
}

/// What is found in a file: the uses that are kept, in their order, up to the first that is free; and the tables of the
/// file.
#[derive(Drop)]
pub struct FileLook {
    pub tables: FileTables,
    pub kept: Vec<FoundObstacle>,
    pub free: Option<FoundForm>,
}

/// Looks at a file of the package with this number, with these tokens and comments. The package's block is handed over,
/// and stands in the tables of the file. An error where memory is refused.
///
/// One step for each declaration, import and part that may be a use; see `search_file`.
pub fn look_at_file(
    alloc: Global,
    program: &ProgramSources,
    home: usize,
    source: &SourceTree,
    tokens: &Tokens,
    block: Block,
) -> Result<FileLook, NoMemory>
    requires places { FindsPackages program.now.places.now program.now.packages.now }
    requires ascend { CommentsAscend 0 tokens.now.comments }
    requires table { HasOwnTable block }
    ensures look { IfOk result (IsLook program.now home source.now tokens.now block.names) }
    ensures block { IfOk result (λ l. block_in l.tables ≡ block) }
{
    let tables = file_tables(alloc, program.packages, program.places, block, &source.tree)?;
    let view = FileView {
        home,
        tree: &source.tree,
        comments: tokens.comments(),
        names: &tables.names,
        scopes: &tables.scopes,
        imports: &tables.imports,
    };
    let values = ProgramView {
        packages: program.packages,
        values: program.values,
        types: program.types,
    };
    let found = search_file(alloc, &values, program.marks, &view)?;
    Ok(FileLook {
        tables,
        kept: found.kept,
        free: found.free,
    })
}
