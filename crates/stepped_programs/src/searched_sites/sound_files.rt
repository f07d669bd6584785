//! Files of well-typed programs are as searches ask: laws alone, without code (Go specification, Composite literals;
//! Blocks; For statements).

mod laws;

pub use laws::typed_files_are_sound;
