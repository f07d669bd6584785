//! The methods that headers declare are put into the table of types, by which selectors find them (Go
//! specification, Method declarations; Method sets; Selectors).

mod sets;
mod table;

pub use table::declare_methods;
