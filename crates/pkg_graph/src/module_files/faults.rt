//! A module, and why its files aren't one.

use go_tree::Text;
use std::alloc::AllocError;

/// A module: its path (Go Modules Reference, Modules, packages, and versions).
#[derive(Drop)]
pub struct Module {
    pub path: Text,
}

/// Why files aren't the packages of a module. A `file` counts from 0 in the list of files, and `at`
/// is an offset in it.
#[derive(Drop)]
pub enum GraphError {
    /// `go.mod` has no module line, or one that names no path.
    NoModuleLine,
    /// The version of the go line, or `none`.
    OldGo(Text),
    /// The package name of a file isn't that of the first file of its folder.
    MixedPackage { file: u32, at: u32 },
    /// An import path names no package of the module, or one named `main`.
    NoPackage { file: u32, at: u32, path: Text },
    /// The least path of a package that lies on a cycle of imports.
    Cycle(Text),
    /// An import of an internal package of another folder.
    Internal { file: u32, at: u32, path: Text },
    /// Memory was refused.
    NoMemory,
}

impl From<AllocError> for GraphError {
    ghost use Rattle.pkg_graph.specs.declared.module_files.faults.GraphError.TheVariants.{NoMemory};
    ghost use Rattle.std.specs.Prelude.{◌≡◌};

    ghost from_gives = { λ _ e. e ≡ NoMemory };

    fn from(_: AllocError) -> Self {
        GraphError::NoMemory
    }
}
