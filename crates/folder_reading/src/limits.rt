//! How many files a module may have, and how many bytes.

ghost use Rattle.std.specs.Prelude.{◌≡◌, ◌+◌, ◌≤◌, IfErr, IfOk, OnOk, false, length, true};
ghost use Rattle.folder_reading.specs.Limits.{is_too_long};

use crate::faults::FolderFault;
use go_tree::MAX_FILE_BYTES;

/// The most files that are read.
pub const MAX_FILES: u32 = 4_096;

/// The most bytes of all files.
pub const MAX_MODULE_BYTES: u32 = 16_777_216;

/// How many bytes the files have with one more, whose number this is, where they are within the limits.
pub(crate) fn add_bytes(before: u32, number: u32, bytes: &[u8]) -> Result<u32, FolderFault>
    requires { before ≤ MAX_MODULE_BYTES }
    ensures sum { IfOk result (λ sum. sum ≡ before + length bytes.now) }
    ensures within { OnOk result (is_too_long before bytes.now ≡ false) }
    ensures too_long { IfErr result
        (λ e. (e ≡ FolderFault.TooLong number) × (is_too_long before bytes.now ≡ true)) }
{
    let count = bytes.len();
    if count > MAX_FILE_BYTES as usize || before as usize + count > MAX_MODULE_BYTES as usize {
        return Err(FolderFault::TooLong(number));
    }
    Ok(before + count as u32)
}
