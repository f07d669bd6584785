//! What marked constants are declared as: a name, or a name of another package, found once for each declaration.

mod laws;
mod marked;
mod names;
mod table;
mod values;

pub use laws::tables_tell_values;
pub use marked::PackageScopes;
pub use table::ConstantValues;
pub use values::{DeclaredValue, DeclaredValues};
