//! Names and texts as lists of bytes.

ghost use Rattle.std.specs.Prelude.{◌≡◌, IfOk};

use crate::limits::NoMemory;
use crate::spans::Span;
use std::alloc::Global;
use std::marker::Model;

/// An identifier or other name: its bytes.
pub struct Name {
    bytes: Vec<u8>,
}

impl Drop for Name {
    fn drop(self) {
        let Name { bytes: _ } = self;
    }
}

impl Model for Name {
    ghost use Rattle.std.specs.Prelude.{List, ℕ};

    ghost Value = { List ℕ };

    ghost view = { λ a. a.bytes.items };
}

impl Name {
    /// The name of these bytes.
    pub fn of(v: Vec<u8>) -> Self
        ensures { result ≡ v.items }
    {
        Name { bytes: v }
    }

    /// The name of a copy of these bytes.
    pub fn copied(alloc: Global, bytes: &[u8]) -> Result<Self, NoMemory>
        ensures { IfOk result (λ name. name ≡ bytes.now) }
    {
        Ok(Name {
            bytes: bytes.to_vec(alloc)?,
        })
    }

    /// Its bytes.
    pub fn items(&self) -> &[u8]
        ensures { result.now ≡ self.now }
    {
        &self.bytes
    }
}

/// A list of bytes: the spelling of a literal, a path, the text of a file.
pub struct Text {
    bytes: Vec<u8>,
}

impl Drop for Text {
    fn drop(self) {
        let Text { bytes: _ } = self;
    }
}

impl Model for Text {
    ghost use Rattle.std.specs.Prelude.{List, ℕ};

    ghost Value = { List ℕ };

    ghost view = { λ a. a.bytes.items };
}

impl Text {
    /// The text of these bytes.
    pub fn of(v: Vec<u8>) -> Self
        ensures { result ≡ v.items }
    {
        Text { bytes: v }
    }

    /// The text of a copy of these bytes.
    pub fn copied(alloc: Global, bytes: &[u8]) -> Result<Self, NoMemory>
        ensures { IfOk result (λ text. text ≡ bytes.now) }
    {
        Ok(Text {
            bytes: bytes.to_vec(alloc)?,
        })
    }

    /// Its bytes.
    pub fn items(&self) -> &[u8]
        ensures { result.now ≡ self.now }
    {
        &self.bytes
    }
}

/// A name and where it stands.
#[derive(Drop)]
pub struct NameAt {
    pub span: Span,
    pub name: Name,
}

/// Names in their order.
pub struct NameAtList {
    items: Vec<NameAt>,
}

impl Drop for NameAtList {
    fn drop(self) {
        let NameAtList { items: _ } = self;
    }
}

impl Model for NameAtList {
    ghost use Rattle.std.specs.Prelude.{List};
    ghost use Rattle.go_tree.specs.declared.texts.NameAt.{NameAt};

    ghost Value = { List NameAt };

    ghost view = { λ a. a.items.items };
}

impl NameAtList {
    /// The list of these entries.
    pub fn of(v: Vec<NameAt>) -> Self
        ensures { result ≡ v.items }
    {
        NameAtList { items: v }
    }

    /// Its entries.
    pub fn items(&self) -> &[NameAt]
        ensures { result.now ≡ self.now }
    {
        &self.items
    }
}
