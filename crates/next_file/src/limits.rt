//! Which limit the next step of a run passes.

ghost use Rattle.std.specs.Prelude.{◌≡◌, IfNone, IfSome, Option, Some};
ghost use Rattle.run_rules.specs.Run.{TooLarge};
ghost use Rattle.step_files.specs.Limits.{KeepsLimits, tried, told};

use go_tree::MAX_FILE_BYTES;
use refusals::Limit;
use step_files::{Passed, Progress};

/// The most steps of a run.
const MAX_STEPS: u32 = 65_536;

/// The most steps of one origin.
const MAX_STEPS_OF_USE: u32 = 1_024;

/// The most bytes of all files.
const MAX_MODULE_BYTES: u32 = 16_777_216;

/// The first limit of steps and of bytes that a step passes after which its file has so many bytes.
#[tactic(auto, using(crate::proofs::Tried::steps_passed, crate::proofs::Tried::uses_passed, crate::proofs::Tried::bytes_passed, crate::proofs::Tried::total_passed))]
pub(crate) fn first_passed(progress: &Progress, bytes: usize) -> Option<Passed>
    ensures passed { IfSome result
        (λ p. (rest : Option TooLarge) → tried progress.now bytes rest ≡ Some (told p)) }
    ensures kept { IfNone result (KeepsLimits progress.now bytes) }
{
    let steps = progress.steps as u64 + 1;
    if steps > MAX_STEPS as u64 {
        return Some(Passed {
            limit: Limit::Steps,
            count: steps,
            bound: MAX_STEPS as u64,
        });
    }
    let steps_of_use = progress.steps_of_use as u64 + 1;
    if steps_of_use > MAX_STEPS_OF_USE as u64 {
        return Some(Passed {
            limit: Limit::StepsOfUse,
            count: steps_of_use,
            bound: MAX_STEPS_OF_USE as u64,
        });
    }
    if bytes > MAX_FILE_BYTES as usize {
        return Some(Passed {
            limit: Limit::Bytes,
            count: bytes as u64,
            bound: MAX_FILE_BYTES as u64,
        });
    }
    let total = progress.other_bytes as u64 + bytes as u64;
    if total > MAX_MODULE_BYTES as u64 {
        return Some(Passed {
            limit: Limit::Total,
            count: total,
            bound: MAX_MODULE_BYTES as u64,
        });
    }
    None
}
