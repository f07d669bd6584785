//! The texts of the files of a module, package by package.

mod numbers;
mod placed;

pub use placed::package_texts;
