//! How it is told why nothing is planned for a module.

ghost use Rattle.std.specs.Prelude.{◌≡◌};
ghost use Rattle.module_refusals.specs.Told.{told_whole};
ghost use Rattle.run_plans.specs.PlannedModules.Unplanned.{too_large_told};

use crate::planned_modules::faults::ModuleFault;
use folder_reading::MAX_MODULE_BYTES;
use module_refusals::of_whole;
use refusals::{Detail, Limit};

/// The module isn't of the form that is built.
pub(crate) fn not_built() -> ModuleFault
    ensures { result ≡ ModuleFault.Refused (told_whole Detail.NotYet) }
{
    ModuleFault::Refused(of_whole(Detail::NotYet))
}

/// The module has so many bytes, more than one may have.
pub(crate) fn too_large(size: u64) -> ModuleFault
    ensures { result ≡ ModuleFault.Refused (told_whole (too_large_told size)) }
{
    ModuleFault::Refused(of_whole(Detail::TooLarge {
        limit: Limit::Total,
        count: size,
        bound: MAX_MODULE_BYTES as u64,
    }))
}
