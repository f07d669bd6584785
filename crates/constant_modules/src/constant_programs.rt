//! Programs of constants on the way of a run, with the limits of the run: definitions and laws alone, without code (Go
//! specification, Constant declarations; Import declarations; Packages).

mod laws;

pub use laws::constant_programs_stay;
