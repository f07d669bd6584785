//! Texts in their packages.

ghost use Rattle.std.specs.Prelude.{◌≡◌, ◌<◌, ◌++◌, ◌∷◌, [], false, All, IfOk, OnOk, length};
ghost use Rattle.std.specs.Prelude.{nat_lt};
ghost use Rattle.std.specs.List.{list_all};
ghost use Rattle.programs.specs.TextsOfPackages.Given.{ArePlaced, AreTexts, HaveNone};

use crate::PackageFiles;
use crate::texts_of_packages::numbers::file_numbers;
use file_names::Places;
use go_tree::{NoMemory, Text};
use module_texts::ScannedFile;
use std::alloc::{AllocError, Global};

/// So many packages without files.
fn no_texts(alloc: Global, count: usize) -> Result<Vec<PackageFiles>, NoMemory>
    ensures { IfOk result (λ kept. HaveNone count kept.items) }
{
    let mut kept = Vec::new(alloc);
    for number in 0..count {
        let _ = number;
        kept.push(PackageFiles {
            texts: Vec::new(alloc),
            tokens: Vec::new(alloc),
            settled: Vec::new(alloc),
        })?;
    }
    Ok(kept)
}

/// Adds a file, which isn't settled.
fn add_text(alloc: Global, kept: &mut PackageFiles, scanned: ScannedFile) -> Result<(), NoMemory>
    ensures texts { OnOk result (kept.new.texts.items ≡ kept.old.texts.items ++ scanned.entry.file.now.bytes ∷ []) }
    ensures tokens { OnOk result (kept.new.tokens.items ≡ kept.old.tokens.items ++ scanned.entry.tokens ∷ []) }
    ensures flags { OnOk result (kept.new.settled.items ≡ kept.old.settled.items ++ false ∷ []) }
{
    let ScannedFile { file, tokens } = scanned;
    let text = Text::copied(alloc, file.bytes.items())?;
    kept.texts.push(text)?;
    kept.tokens.push(tokens)?;
    kept.settled.push(false)?;
    Ok(())
}

/// Adds each file to the package of its number; an error where there are fewer files than numbers, too.
fn place_texts(
    alloc: Global,
    numbers: &[usize],
    files: Vec<ScannedFile>,
    kept: &mut Vec<PackageFiles>,
) -> Result<(), NoMemory>
    requires below { All (λ n. n < length kept.old.items) numbers.now }
    ensures { OnOk result (ArePlaced numbers.now files.entry.items kept.old.items kept.new.items) }
{
    let mut rest = files.into_iter();
    for number in numbers {
        let Some(scanned) = rest.next() else {
            return Err(AllocError);
        };
        add_text(alloc, &mut kept[*number], scanned)?;
    }
    Ok(())
}

/// Whether all numbers are below a bound.
fn are_below(numbers: &[usize], count: usize) -> bool
    ensures { result ≡ list_all (λ n. nat_lt n count) numbers.now }
{
    for number in numbers {
        if *number >= count {
            return false;
        }
    }
    true
}

/// The texts of the files of a module with this path, with their tokens and comments, in its packages, of which there
/// are so many, and which stand at these places by their paths: each file in the package of its folder, in the order
/// given; none of them is settled. The tokens are handed over, and the texts copied. An error where memory is
/// refused, or where a file is in none of the packages.
pub fn package_texts(
    alloc: Global,
    module_path: &[u8],
    places: &Places,
    count: usize,
    files: Vec<ScannedFile>,
) -> Result<Vec<PackageFiles>, NoMemory>
    ensures { IfOk result (λ kept. AreTexts module_path.now places.now count files.entry.items kept.items) }
{
    let numbers = file_numbers(alloc, module_path, places, &files)?;
    if !are_below(&numbers, count) {
        return Err(AllocError);
    }
    let mut kept = no_texts(alloc, count)?;
    place_texts(alloc, &numbers, files, &mut kept)?;
    Ok(kept)
}
