//! The packages that a marked function names, at a call that becomes its literal: each is among those that
//! the literal asks a name for. Where all of them have names already, the call means the literal (Go
//! specification, Qualified identifiers; Import declarations; Calls; Function literals).

mod laws;

pub use laws::{
    exported_fields_are_seen, named_packages_are_needed, named_packages_serve,
    served_calls_mean_their_literals,
};
