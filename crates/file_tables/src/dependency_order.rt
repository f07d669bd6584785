//! The order of the packages of a program as it stands.

mod links;
mod numbers;
mod order;

pub use order::package_order;
