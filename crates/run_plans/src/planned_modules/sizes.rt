//! The bytes of a module.

ghost use Rattle.std.specs.Prelude.{◌≡◌, ◌<◌, ◌≤◌, ◌^◌, All, length};
ghost use Rattle.run_rules.specs.Run.{the_limits};
ghost use Rattle.run_plans.specs.PlannedModules.Folders.{size_of};

use folder_reading::MAX_MODULE_BYTES;
use go_tree::MAX_FILE_BYTES;
use source_files::SourceFile;

/// The bytes of the files together.
pub(crate) fn total_bytes(files: &[SourceFile]) -> u64
    requires count { length files.now < 2 ^ 32 }
    requires small { All (λ f. length f.bytes ≤ MAX_FILE_BYTES) files.now }
    ensures { result ≡ size_of files.now }
{
    let mut sum = 0;
    for file in files {
        sum += file.bytes.items().len() as u64;
    }
    sum
}

/// So many bytes, if they are no more than a module may have.
pub(crate) fn within_limit(size: u64) -> u32
    ensures { size ≤ the_limits.total → result ≡ size }
{
    if size <= MAX_MODULE_BYTES as u64 {
        size as u32
    } else {
        MAX_MODULE_BYTES
    }
}
