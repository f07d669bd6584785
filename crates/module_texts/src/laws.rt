//! Laws of modules that are read.

ghost use Rattle.module_texts.specs.Modules.{SelectedFilesRead};

/// What the selected files of a folder read as, the folder reads as.
pub fn selected_files_read_alike()
    ensures { SelectedFilesRead }
{}
