//! Laws of the files of well-typed packages.

ghost use Rattle.standing_files.specs.Laws as law;

/// In well-typed packages, each of which stands in the dependency order, the package of each file stands
/// once among the linked ones, each of its headers declares something before methods are known, and no
/// import of the file is refused. So it is with the file of each marked declaration.
pub fn typed_files_stand()
    ensures files { law.FilesStand }
    ensures marks { law.MarkedFilesStand }
{}

/// So what a name at the top of such a file means to a run is what it means to the rules of typing, and
/// the names that a run finds there for packages serve at its uses.
pub fn names_of_files_mean_the_same()
    ensures meant { law.NamesOfFilesMeanTheSame }
    ensures nothing { law.NothingElseIsMeantInFiles }
    ensures serves { law.NamesInFilesServe }
{}
