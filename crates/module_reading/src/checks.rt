//! The words of all files, and how deeply they nest.

ghost use Rattle.std.specs.Prelude.{◌<◌, ◌^◌, All, MatchOption, length};
ghost use Rattle.module_texts.specs.Files.{IsScanned};
ghost use Rattle.module_texts.specs.Refusals.{FailsFirst, HasFirstWord, HasWords, IsDeepAt, IsShallow};

use go_nesting::{MAX_LIMIT, weight_over};
use go_scan::unsupported;
use go_tree::Span;
use module_texts::ScannedFile;

/// The first file that has a word that isn't supported, by its number, and the first such word.
pub(crate) fn first_unsupported(files: &[ScannedFile]) -> Option<(u32, Span)>
    requires count { length files.now < 2 ^ 32 }
    requires scanned { All IsScanned files.now }
    ensures { MatchOption result (All HasWords files.now)
        (λ x. FailsFirst HasWords (HasFirstWord x.1) files.now x.0) }
{
    for (number, scanned) in files.iter().enumerate() {
        if let Some(span) = unsupported(scanned.file.bytes.items(), &scanned.tokens) {
            return Some((number as u32, span));
        }
    }
    None
}

/// The first file that nests too deeply, by its number, and the first such token.
pub(crate) fn first_too_deep(files: &[ScannedFile]) -> Option<(u32, u32)>
    requires { length files.now < 2 ^ 32 }
    ensures { MatchOption result (All IsShallow files.now)
        (λ x. FailsFirst IsShallow (IsDeepAt x.1) files.now x.0) }
{
    for (number, scanned) in files.iter().enumerate() {
        if let Some(at) = weight_over(&scanned.tokens, MAX_LIMIT) {
            return Some((number as u32, at));
        }
    }
    None
}
