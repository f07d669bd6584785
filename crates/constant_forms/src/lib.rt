//! What a use of a marked constant becomes: the name that the constant is declared as, written at the use, or the
//! obstacle that keeps it.
#![tactic(auto)]

mod obstacles;
mod packages;
mod reduced;
mod uses;

pub use import_edit::settle_scanned;
pub use obstacles::Obstacle;
pub use packages::NamedPackage;
pub use reduced::{ConstantForm, ReducedConstant, reduced_constant};
pub use uses::{ConstantUse, ConstantValue};
