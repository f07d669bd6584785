//! The types of the composite literals around a place (Go specification, Composite literals).

ghost use Rattle.std.specs.Prelude.{◌≡◌, [], ◌∷◌, drop, OnErr, OnOk};
ghost use Rattle.name_uses.specs.Views.{top_of};

use go_tree::NoMemory;
use std::alloc::Global;
use std::marker::Model;
use type_table::TypeId;

/// The types of the composite literals around a place, innermost first; none for a literal whose type has
/// no meaning.
#[derive(Drop)]
pub(crate) struct LiteralTypes {
    items: Vec<Option<TypeId>>,
}

impl Model for LiteralTypes {
    ghost use Rattle.std.specs.Prelude.{List, Option, reverse};
    ghost use Rattle.type_table.specs.declared.nodes.TypeId.{TypeId};

    ghost Value = { List (Option TypeId) };

    ghost view = { λ a. reverse a.items.items };
}

impl LiteralTypes {
    /// No literals.
    pub(crate) fn new(alloc: Global) -> Self
        ensures { result ≡ [] }
    {
        LiteralTypes {
            items: Vec::new(alloc),
        }
    }

    /// The type of the innermost literal, if there is one and it has a type.
    pub(crate) fn top(&self) -> Option<TypeId>
        ensures { result ≡ top_of self.now }
    {
        match self.items.last() {
            Some(of) => *of,
            None => None,
        }
    }

    /// One more literal, the innermost.
    pub(crate) fn push(&mut self, of: Option<TypeId>) -> Result<(), NoMemory>
        ensures added { OnOk result (self.new ≡ of ∷ self.old) }
        ensures same { OnErr result (self.new ≡ self.old) }
    {
        self.items.push(of)?;
        Ok(())
    }

    /// Without the innermost one.
    pub(crate) fn pop(&mut self)
        ensures { self.new ≡ drop 1 self.old }
    {
        match self.items.pop() {
            Some(_) => {}
            None => {}
        }
    }
}
