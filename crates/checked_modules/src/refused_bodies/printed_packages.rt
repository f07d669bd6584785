//! Packages whose files hold constants, and functions that print them, alone.

mod laws;
mod packages;

pub use laws::print_only_is_printed;
pub use packages::print_only;
