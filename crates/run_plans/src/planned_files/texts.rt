//! The last texts of the files that were read.

ghost use Rattle.std.specs.Prelude.{◌≡◌, ◌++◌, ℕ, List, map, IfOk, OnOk, slice_get};
ghost use Rattle.std.specs.List.{zip};
ghost use Rattle.std.specs.Option.{option_map};
ghost use Rattle.file_names.specs.Places.{Finds};
ghost use Rattle.pkg_graph.specs.Views.{package_view, source_of};
ghost use Rattle.run_plans.specs.PlannedFiles.Referred.{referred};
ghost use Rattle.run_plans.specs.PlannedFiles.Texts.{file_paths, kept_texts, last_texts, text_row, text_with_path};

use crate::planned_files::changed_files::LastText;
use file_names::Places;
use go_tree::{NoMemory, Text};
use pkg_graph::{Package, SourceTree};
use programs::{PackageFiles, Program};
use source_files::SourceFile;
use std::alloc::Global;

/// Adds the paths of files.
fn add_paths<'a>(files: &'a [SourceTree], paths: &mut Vec<&'a [u8]>) -> Result<(), NoMemory>
    ensures { OnOk result (referred paths.new.items
        ≡ referred paths.old.items ++ map (λ f. f.path) (map source_of files.now)) }
{
    for file in files {
        paths.push(file.path.items())?;
    }
    Ok(())
}

/// The paths of the files of packages, one package after the other.
fn program_paths(alloc: Global, packages: &[Package]) -> Result<Vec<&[u8]>, NoMemory>
    ensures { IfOk result (λ paths. referred paths.items ≡ file_paths (map package_view packages.now)) }
{
    let mut paths = Vec::new(alloc);
    for package in packages {
        add_paths(package.files.items(), &mut paths)?;
    }
    Ok(paths)
}

/// Where each path stands in the list.
fn path_places(alloc: Global, paths: &[&[u8]]) -> Result<Places, NoMemory>
    ensures { IfOk result (λ places. Finds places (referred paths.now)) }
{
    let mut places = Places::new(alloc);
    for (place, path) in paths.iter().enumerate() {
        places.push(alloc, *path, place)?;
    }
    Ok(places)
}

/// Adds texts.
fn add_texts<'a>(kept: &'a [Text], texts: &mut Vec<&'a [u8]>) -> Result<(), NoMemory>
    ensures { OnOk result (referred texts.new.items ≡ referred texts.old.items ++ kept.now) }
{
    for text in kept {
        texts.push(text.items())?;
    }
    Ok(())
}

/// The texts that are kept of the files of packages, one package after the other.
fn program_texts(alloc: Global, files: &[PackageFiles]) -> Result<Vec<&[u8]>, NoMemory>
    ensures { IfOk result (λ texts. referred texts.items ≡ kept_texts files.now) }
{
    let mut texts = Vec::new(alloc);
    for kept in files {
        add_texts(&kept.texts, &mut texts)?;
    }
    Ok(texts)
}

/// The text with this number.
#[tactic(auto, using(crate::proofs::PlannedFiles::Lookups::got))]
fn numbered_text<'a>(texts: &[&'a [u8]], number: usize) -> Option<&'a [u8]>
    ensures { option_map (λ t. t.now) result ≡ slice_get (referred texts.now) number }
{
    texts.get(number).copied()
}

/// The text of the file with this path, where `places` says where each path stands, and so where its text does.
fn find_text<'a>(places: &Places, texts: &[&'a [u8]], path: &[u8]) -> Option<&'a [u8]>
    ensures { (paths : List (List ℕ)) → Finds places.now paths
        → option_map (λ t. t.now) result ≡ text_with_path (zip paths (referred texts.now)) path.now }
{
    match places.find(path) {
        Some(place) => numbered_text(texts, place),
        None => None,
    }
}

/// Adds a copy of the text of the file with this number, if it has one.
fn add_last(
    alloc: Global,
    file: usize,
    text: Option<&[u8]>,
    last: &mut Vec<LastText>,
) -> Result<(), NoMemory>
    ensures { OnOk result (last.new.items ≡ last.old.items ++ text_row file (option_map (λ t. t.now) text.entry)) }
{
    if let Some(text) = text {
        let text = Text::copied(alloc, text)?;
        last.push(LastText { file, text })?;
    }
    Ok(())
}

/// The last texts of the files that were read, in their order: of each that is one of the program, by its path. The
/// texts are copied. Linear in the files and the texts, but for one look-up for each file that was read. The only error
/// is `NoMemory`.
pub fn last_texts(
    alloc: Global,
    files: &[SourceFile],
    program: &Program,
) -> Result<Vec<LastText>, NoMemory>
    ensures { IfOk result (λ texts. texts.items ≡ last_texts program.now files.now) }
{
    let paths = program_paths(alloc, &program.packages)?;
    let places = path_places(alloc, &paths)?;
    let texts = program_texts(alloc, &program.files)?;
    let mut last = Vec::new(alloc);
    for (file, source) in files.iter().enumerate() {
        let text = find_text(&places, &texts, source.path.items());
        add_last(alloc, file, text, &mut last)?;
    }
    Ok(last)
}
