//! The names that forms have for packages aren't `_`: definitions and laws alone, without code (Go specification,
//! Import declarations; Blank identifier).

mod laws;

pub use laws::forms_name_no_blank;
