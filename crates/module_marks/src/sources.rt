//! The packages of a module and the texts of its files, each found by its path.

ghost use Rattle.std.specs.Prelude.{◌≡◌, All, IfSome, map, IfOk};
ghost use Rattle.std.specs.Option.{option_map};
ghost use Rattle.run_rules.specs.Marks.{text_at};
ghost use Rattle.module_texts.specs.Files.{IsScanned};
ghost use Rattle.file_names.specs.Places.{Finds};
ghost use Rattle.module_marks.specs.Views.{file_text, texts_of};
ghost use Rattle.module_marks.specs.Sources.{FindsSources};

use file_names::{Places, find_packages};
use go_tree::NoMemory;
use module_texts::ScannedFile;
use pkg_graph::Package;
use std::alloc::Global;

/// The packages of a module, and its files with their texts and tokens.
#[derive(Drop)]
pub(crate) struct Sources<'a> {
    pub(crate) packages: &'a [Package],
    pub(crate) places: Places,
    pub(crate) files: &'a [ScannedFile<'a>],
    pub(crate) texts: Places,
}

/// Where each file stands in the list, by its path.
fn find_texts(alloc: Global, files: &[ScannedFile]) -> Result<Places, NoMemory>
    ensures { IfOk result (λ places. Finds places (map (λ s. s.file.now.path) files.now)) }
{
    let mut places = Places::new(alloc);
    for (place, scanned) in files.iter().enumerate() {
        places.push(alloc, scanned.file.path.items(), place)?;
    }
    Ok(places)
}

impl<'a> Sources<'a> {
    /// These packages and files.
    pub(crate) fn of(
        alloc: Global,
        packages: &'a [Package],
        files: &'a [ScannedFile<'a>],
    ) -> Result<Sources<'a>, NoMemory>
        ensures packages { IfOk result (λ s. s.packages.now ≡ packages.now) }
        ensures files { IfOk result (λ s. s.files.now ≡ files.now) }
        ensures found { IfOk result FindsSources }
    {
        let places = find_packages(alloc, packages)?;
        let texts = find_texts(alloc, files)?;
        Ok(Sources {
            packages,
            places,
            files,
            texts,
        })
    }

    /// The file with this path: the first, where there are several.
    pub(crate) fn file(&self, path: &[u8]) -> Option<&'a ScannedFile<'a>>
        requires found { FindsSources self.now }
        requires scanned { All IsScanned self.now.files.now }
        ensures text { option_map (λ s. file_text s.now) result ≡ text_at path.now (texts_of self.now.files.now) }
        ensures scanned { IfSome result (λ s. IsScanned s.now) }
    {
        match self.texts.find(path) {
            Some(place) => Some(&self.files[place]),
            None => None,
        }
    }
}
