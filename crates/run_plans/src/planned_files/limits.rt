//! The refusal of a limit, by the files that were read.

ghost use Rattle.std.specs.Prelude.{◌≡◌, ℕ, List, Some, option_copied};
ghost use Rattle.run_plans.specs.PlannedFiles.Limits.{IsReadFile, TellsLimit, file_with_path, path_in};

use pkg_graph::Package;
use refusals::Refusal;
use report_order::limit_refusal;
use source_files::SourceFile;
use step_files::Passed;

/// The file with this path among those that were read. Linear in the files.
pub(crate) fn read_file<'a>(files: &'a [SourceFile], path: &[u8]) -> Option<&'a SourceFile>
    ensures { option_copied result ≡ file_with_path files.now path.now }
{
    for file in files {
        if path == file.path.items() {
            return Some(file);
        }
    }
    None
}

/// What is told where a run passes a limit in the file with these numbers of its package and its own: which limit, by
/// which count, and how much is allowed. It names the file, which was read, by the index at which that was listed, and
/// no place in it. Linear in the files.
pub fn file_limit(
    files: &[SourceFile],
    packages: &[Package],
    home: usize,
    file: usize,
    passed: Passed,
) -> Refusal
    requires read { (path : List ℕ) × IsReadFile files.now packages.now home file path }
    ensures { (path : List ℕ) → path_in packages.now home file ≡ Some path
        → TellsLimit files.now path passed result }
{
    let path = packages[home].files.items()[file].path.items();
    match read_file(files, path) {
        Some(file) => limit_refusal(file.index, passed),
        None => unreachable!("the file was read"),
    }
}
