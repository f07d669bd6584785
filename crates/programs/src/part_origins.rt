//! Where the parts of declarations that may be uses come from, in the files as read.

mod laws;
mod origins;
mod spans;

pub use laws::parts_come_from_themselves;
pub use origins::{Origins, PackageOrigins, program_origins};
