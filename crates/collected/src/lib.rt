//! What the packages of a module declare, found in one call: their types, functions, constants, variables and
//! methods, the tables of types and constants with them, what the names of the package blocks mean, and the headers
//! that are refused (Go specification, Blocks; Declarations and scope; Type declarations; Constant declarations;
//! Variable declarations; Function declarations; Method declarations).
#![tactic(auto)]

mod declarations;
mod methods;
mod package_values;
mod single_headers;
mod types;
mod value_headers;

pub use declarations::{Collected, collect};
pub use header_order::{
    RefusedHeaders, RefusedPlace, blocks_have_names, bodies_come_after, counts_of_modules,
    first_refused_declaration, first_refused_headers, first_refused_imports, headers_by_files,
    uses_are_of_files,
};
pub use initial_values::value_place;
pub use package_values::{DeclaredValues, declare_values};
pub use value_headers::{is_value, read_bodies_are_formed, read_values_are_spelled};
