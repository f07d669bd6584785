//! Programs as they are loaded.

ghost use Rattle.std.specs.Prelude.{◌≡◌, ◌+◌, ◌<◌, ◌^◌, All, IfOk, IfSome, List, is_some, length};
ghost use Rattle.std.specs.Prelude.{map};
ghost use Rattle.pkg_graph.specs.Reads.{Source};
ghost use Rattle.run_rules.specs.Run.{module_file_size, texts_size};
ghost use Rattle.module_texts.specs.Files.{IsScanned};
ghost use Rattle.module_texts.specs.Modules.{IsReadFrom};
ghost use Rattle.module_marks.specs.Views.{mark_ref_of};
ghost use Rattle.source_files.specs.declared.files.SourceFile as code_file;
ghost use Rattle.read_modules.specs.Modules.{IsReadIn, packages_in, texts_in};
ghost use Rattle.stepped_programs.specs.LoadedPrograms.Loaded.{AllAreOpen, AreTables, IsLoaded, marks_constants};

use crate::loaded_programs::marks::constant_marks;
use file_names::{MarkRef, Places, find_packages};
use go_tree::NoMemory;
use module_marks::{MarkTable, ModuleMarks};
use module_texts::ReadModule;
use pkg_graph::Package;
use programs::{PackageOrigins, Program, Users, package_texts, program_origins, program_values};
use repeated_parts::literal_types::LiteralTypes;
use repeated_parts::use_search::mark_values::ConstantValues;
use std::alloc::Global;

/// What is made of the packages of a program, with these marks.
#[derive(Drop)]
pub struct Tables {
    pub places: Places,
    pub origins: Vec<PackageOrigins>,
    pub marks: MarkTable,
    pub values: ConstantValues,
}

/// The tables of packages in which these declarations are marked. An error where memory is refused, or where a file has
/// 2^32 names.
fn program_tables(alloc: Global, packages: &[Package], good: &[MarkRef]) -> Result<Tables, NoMemory>
    requires { length packages.now < 2 ^ 32 }
    ensures { IfOk result (AreTables packages.now (map mark_ref_of good.now)) }
{
    let places = find_packages(alloc, packages)?;
    let values = program_values(alloc, packages, &places)?;
    let origins = program_origins(alloc, packages)?;
    let marks = MarkTable::of(alloc, packages, good)?;
    Ok(Tables {
        places,
        origins,
        marks,
        values,
    })
}

/// The program of a module that is read, with this table of the types that it declares, in which the declarations are
/// marked whose full names begin with `only`; nothing where some mark of the module isn't one of a constant. `bytes` are
/// those of `go.mod` and of all texts. Each file is as it was read: none is settled, and each part comes from where it
/// stands. Each package may be searched. An error where memory is refused, or where a file has 2^32 names.
///
/// One step for each declaration, import and name of a package block, and one look-up for each mark, constant and file;
/// the texts are copied (Go specification, Packages; Constant declarations; golang.org/x/tools, analyzer inline).
pub fn load_program(
    alloc: Global,
    read: ReadModule,
    types: LiteralTypes,
    only: &[u8],
    bytes: u32,
) -> Result<Option<Program>, NoMemory>
    requires few { length read.graph.packages.items < 2 ^ 32 }
    requires scanned { All IsScanned read.files.items }
    ensures constants { IfOk result (λ r. is_some r
        ≡ marks_constants (packages_in read.entry) (texts_in read.entry)) }
    ensures searchable { IfOk result (λ r. IfSome r (λ p. (files : List code_file.SourceFile)
        → IsReadFrom files read.entry → AllAreOpen p)) }
    ensures types { IfOk result (λ r. IfSome r (λ p. p.types ≡ types)) }
    ensures loaded { IfOk result (λ r. IfSome r (λ p. (folder : List Source) (files : List code_file.SourceFile)
        → IsReadIn folder files read.entry → bytes ≡ module_file_size folder + texts_size (texts_in read.entry)
        → IsLoaded folder read.entry only.now p)) }
{
    let ReadModule { home, graph, files } = read;
    let order = graph.order().to_vec(alloc)?;
    let packages = graph.into_packages();
    let marked = constant_marks(alloc, &packages, &files, only)?;
    let Some(found) = marked else {
        return Ok(None);
    };
    let ModuleMarks { good, bad } = found;
    let tables = program_tables(alloc, &packages, &good)?;
    let Tables {
        places,
        origins,
        marks,
        values,
    } = tables;
    let files = package_texts(alloc, home.path.items(), &places, packages.len(), files)?;
    Ok(Some(Program {
        packages,
        files,
        origins,
        places,
        order,
        marks,
        bad,
        values,
        types,
        users: Users::new(alloc),
        bytes,
    }))
}
