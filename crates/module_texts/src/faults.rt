//! Why the files of a module aren't read.

use go_tree::Span;
use pkg_graph::GraphError;
use std::alloc::{AllocError, AllocFailed};

/// Why the text of a file isn't read, in the order of the checks, and the byte or the word at which that is seen.
#[derive(Clone, Copy, Debug, PartialEq, Eq)]
pub enum TextFault {
    /// The text isn't UTF-8 from this byte on.
    NotUtf8(u32),
    /// No token, comment or blank stands at this byte.
    BadToken(u32),
    /// The first word that isn't supported.
    Unsupported(Span),
    /// The first token that nests too deeply.
    TooDeep(u32),
    /// The part that is read as no import and no declaration.
    NotRead(u32),
}

/// Why the files of a module aren't read. A file counts from 0 among the files of Go source.
#[derive(Drop)]
pub enum ReadFault {
    /// A file has a text that isn't read.
    Text { file: u32, fault: TextFault },
    /// `go.mod` or the packages aren't those of a module, or memory was refused.
    Module(GraphError),
}

impl From<AllocError> for ReadFault {
    ghost use Rattle.std.specs.Prelude.{◌≡◌};
    ghost use Rattle.pkg_graph.specs.declared.module_files.faults.GraphError.TheVariants.{NoMemory};
    ghost use Rattle.module_texts.specs.declared.faults.ReadFault.TheVariants.{Module};

    ghost from_gives = { λ _ e. e ≡ Module NoMemory };

    fn from(_: AllocError) -> Self {
        ReadFault::Module(GraphError::NoMemory)
    }
}

impl<T: Drop> From<AllocFailed<T>> for ReadFault {
    ghost use Rattle.std.specs.Prelude.{◌≡◌};
    ghost use Rattle.pkg_graph.specs.declared.module_files.faults.GraphError.TheVariants.{NoMemory};
    ghost use Rattle.module_texts.specs.declared.faults.ReadFault.TheVariants.{Module};

    ghost from_gives = { λ _ e. e ≡ Module NoMemory };

    fn from(_: AllocFailed<T>) -> Self {
        ReadFault::Module(GraphError::NoMemory)
    }
}
