//! A limit that is passed, as a refusal.

ghost use Rattle.std.specs.Prelude.{◌≡◌};
ghost use Rattle.report_order.specs.LimitRefusals.Refused.{limit_told};

use refusals::{Detail, Refusal};
use step_files::Passed;

/// What is told where a step in the file with this index passes a limit: which one, by which count, and how much is
/// allowed. It names the file and no place in it.
pub fn limit_refusal(file: u32, passed: Passed) -> Refusal
    ensures { result ≡ limit_told file passed }
{
    Refusal {
        file: Some(file),
        place: None,
        detail: Detail::TooLarge {
            limit: passed.limit,
            count: passed.count,
            bound: passed.bound,
        },
    }
}
