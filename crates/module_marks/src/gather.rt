//! The marks of all files of a module.

ghost use Rattle.std.specs.Prelude.{◌≡◌, ◌++◌, [], map, All, OnOk, IfOk};
ghost use Rattle.go_tree.specs.declared.spans.Span.{Span};
ghost use Rattle.pkg_graph.specs.Package as pure;
ghost use Rattle.pkg_graph.specs.Views.{package_view, source_of};
ghost use Rattle.run_rules.specs.Programs.{numbered};
ghost use Rattle.run_rules.specs.Marks.{file_marks, files_marks, packages_marks, file_bad, files_bad, bad_of};
ghost use Rattle.module_texts.specs.Files.{IsScanned};
ghost use Rattle.file_names.specs.Members.{IsBlockOf};
ghost use Rattle.module_marks.specs.Views.{mark_ref_of, bad_at_of, texts_of};
ghost use Rattle.module_marks.specs.Sources.{FindsSources};

use crate::file_marks::{ModuleMarks, add_marks};
use crate::sources::Sources;
use file_names::{block_members, member_names, names_of_file};
use go_tree::NoMemory;
use go_tree::scope_names::{FileNames, NameList};
use module_texts::ScannedFile;
use pkg_graph::{Package, SourceTree};
use std::alloc::Global;

/// Adds the marks of the file of these numbers, whose package block has these names, and hands the names back.
fn add_file(
    alloc: Global,
    sources: &Sources,
    home: usize,
    file: usize,
    source: &SourceTree,
    block: NameList,
    list: &mut ModuleMarks,
) -> Result<NameList, NoMemory>
    requires sources { FindsSources sources.now }
    requires scanned { All IsScanned sources.now.files.now }
    ensures block { IfOk result (λ b. b ≡ block) }
    ensures good { OnOk result ((p : pure.Package Span) → IsBlockOf block p
        → map mark_ref_of list.new.good.items ≡ map mark_ref_of list.old.good.items
        ++ file_marks (map package_view sources.now.packages.now) (texts_of sources.now.files.now) home p
        (file, source_of source.now)) }
    ensures bad { OnOk result ((p : pure.Package Span) → IsBlockOf block p
        → map bad_at_of list.new.bad.items ≡ map bad_at_of list.old.bad.items
        ++ file_bad (map package_view sources.now.packages.now) (texts_of sources.now.files.now) p
        (source_of source.now)) }
{
    let Some(scanned) = sources.file(source.path.items()) else {
        return Ok(block);
    };
    let names = names_of_file(
        alloc,
        sources.packages,
        &sources.places,
        block,
        &source.tree,
    )?;
    add_marks(alloc, home, file, scanned, source, &names, list)?;
    let FileNames { package, .. } = names;
    Ok(package)
}

/// Adds the marks of the package of this number.
fn add_package(
    alloc: Global,
    sources: &Sources,
    number: usize,
    home: &Package,
    list: &mut ModuleMarks,
) -> Result<(), NoMemory>
    requires sources { FindsSources sources.now }
    requires scanned { All IsScanned sources.now.files.now }
    ensures good { OnOk result (map mark_ref_of list.new.good.items ≡ map mark_ref_of list.old.good.items
        ++ files_marks (map package_view sources.now.packages.now) (texts_of sources.now.files.now) number
        (package_view home.now) (numbered (package_view home.now).files)) }
    ensures bad { OnOk result (map bad_at_of list.new.bad.items ≡ map bad_at_of list.old.bad.items
        ++ files_bad (map package_view sources.now.packages.now) (texts_of sources.now.files.now)
        (package_view home.now) (package_view home.now).files) }
{
    let members = block_members(alloc, number, home)?;
    let mut block = member_names(alloc, &members)?;
    for (file, source) in home.files.items().iter().enumerate() {
        block = add_file(alloc, sources, number, file, source, block, list)?;
    }
    Ok(())
}

/// The marks of the packages of a module. `files` are its files with their tokens; a file of a package whose path none of
/// them has is one without marks. Linear in the module, but for its imports. The only error is `NoMemory`.
pub fn find_marks(
    alloc: Global,
    packages: &[Package],
    files: &[ScannedFile],
) -> Result<ModuleMarks, NoMemory>
    requires { All IsScanned files.now }
    ensures good { IfOk result (λ m. map mark_ref_of m.good.items
        ≡ packages_marks (map package_view packages.now) (texts_of files.now)
        (numbered (map package_view packages.now))) }
    ensures bad { IfOk result (λ m. map bad_at_of m.bad.items
        ≡ bad_of (map package_view packages.now) (texts_of files.now) (map package_view packages.now)) }
{
    let sources = Sources::of(alloc, packages, files)?;
    let mut list = ModuleMarks {
        good: Vec::new(alloc),
        bad: Vec::new(alloc),
    };
    for (number, home) in packages.iter().enumerate() {
        add_package(alloc, &sources, number, home, &mut list)?;
    }
    Ok(list)
}
