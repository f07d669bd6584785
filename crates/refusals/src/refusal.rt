//! Why a module is refused.

ghost use Rattle.std.specs.Prelude.{◌≡◌};
ghost use Rattle.refusals.specs.Refusals.{limit_text, number_of, text_of, whole_of};

use go_tree::{Name, Place, Text};

/// What limit a run passes.
#[derive(Clone, Copy, Debug, PartialEq, Eq, Drop)]
pub enum Limit {
    /// The steps of a run.
    Steps,
    /// The steps of one use.
    StepsOfUse,
    /// The bytes of a file.
    Bytes,
    /// The bytes of all files.
    Total,
    /// How deeply a file nests.
    Weight,
}

impl Limit {
    /// What its refusal says.
    pub(crate) fn text(&self) -> &[u8]
        ensures { result.now ≡ limit_text self.now }
    {
        match self {
            Limit::Steps => b"steps",
            Limit::StepsOfUse => b"steps of one use",
            Limit::Bytes => b"bytes",
            Limit::Total => b"total",
            Limit::Weight => b"weight",
        }
    }
}

/// What a refusal says.
#[derive(Drop)]
pub enum Detail {
    /// A text isn't UTF-8.
    NotUtf8,
    /// A text has a piece that is no token, comment or blank.
    BadToken,
    /// There are too many files, or too many bytes in them.
    TooBig,
    /// A word that isn't supported.
    Unsupported(Text),
    /// A part of a file is read as no import and no declaration.
    NotRead,
    /// A token nests too deeply.
    TooDeep,
    /// `go.mod` isn't there, or names no module.
    NoModuleLine,
    /// The version of the language, or `none`.
    OldGo(Text),
    /// The name of a file's package, which isn't that of its folder.
    MixedPackage(Name),
    /// The path of an import that names no package.
    NoPackage(Text),
    /// The path of a package that lies on a cycle of imports.
    Cycle(Text),
    /// The path of an import that isn't allowed where it stands.
    Internal(Text),
    /// The module isn't well typed.
    NotTyped,
    /// A run passes a limit: by which number, and how much is allowed.
    TooLarge {
        limit: Limit,
        count: u64,
        bound: u64,
    },
    /// The module has a construct that isn't built yet.
    NotYet,
}

impl Detail {
    /// The number by which users know it.
    pub fn number(&self) -> u16
        ensures { result ≡ number_of self.now }
    {
        match self {
            Detail::NotYet => 100,
            Detail::NotUtf8 => 101,
            Detail::BadToken => 102,
            Detail::TooBig => 103,
            Detail::Unsupported(_) => 110,
            Detail::NotRead => 111,
            Detail::TooDeep => 112,
            Detail::NoModuleLine => 301,
            Detail::OldGo(_) => 302,
            Detail::MixedPackage(_) => 303,
            Detail::NoPackage(_) => 304,
            Detail::Cycle(_) => 305,
            Detail::Internal(_) => 306,
            Detail::NotTyped => 401,
            Detail::TooLarge { .. } => 501,
        }
    }

    /// What it says.
    pub(crate) fn text(&self) -> &[u8]
        ensures { result.now ≡ text_of self.now }
    {
        match self {
            Detail::NotUtf8 => b"not UTF-8",
            Detail::BadToken => b"bad token",
            Detail::TooBig => b"too large",
            Detail::Unsupported(word) => word.items(),
            Detail::NotRead => b"not read",
            Detail::TooDeep => b"too deep",
            Detail::NoModuleLine => b"no module line",
            Detail::OldGo(version) => version.items(),
            Detail::MixedPackage(name) => name.items(),
            Detail::NoPackage(path) => path.items(),
            Detail::Cycle(_) => b"import cycle",
            Detail::Internal(path) => path.items(),
            Detail::NotTyped => b"not typed",
            Detail::TooLarge { limit, .. } => limit.text(),
            Detail::NotYet => b"not built yet",
        }
    }

    /// Where it stands, if it stands in no file that is listed.
    pub(crate) fn whole(&self) -> &[u8]
        ensures { result.now ≡ whole_of self.now }
    {
        match self {
            Detail::NoModuleLine | Detail::OldGo(_) => b"go.mod",
            Detail::Cycle(path) => path.items(),
            _ => b"module",
        }
    }
}

/// Why a module is refused: what is wrong, the number of the listed file in which it is, and the place there.
#[derive(Drop)]
pub struct Refusal {
    pub file: Option<u32>,
    pub place: Option<Place>,
    pub detail: Detail,
}
