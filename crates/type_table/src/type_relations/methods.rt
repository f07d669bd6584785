//! Methods of a type by their names (Go specification, Method declarations; Method sets).

ghost use Rattle.std.specs.Prelude.{◌≡◌, [], ◌++◌, ◌∷◌, None, OnErr, OnOk};
ghost use Rattle.type_table.specs.TypeRelations.Methods.{found_row, method_row, seen_method};

use crate::TypeIdList;
use go_tree::NoMemory;
use indexmap::IndexMap;
use std::alloc::Global;
use std::marker::Model;

/// The types of parameters and results.
#[derive(Drop)]
pub struct FuncType {
    pub params: TypeIdList,
    pub results: TypeIdList,
}

/// A method, with whether its receiver is a pointer (Go specification, Method declarations).
#[derive(Drop)]
pub struct Method {
    pub pointer: bool,
    pub of: FuncType,
}

/// The methods of a type, in the order in which they came.
#[derive(Drop)]
pub struct MethodSet {
    entries: IndexMap<Vec<u8>, Method>,
}

impl Model for MethodSet {
    ghost use Rattle.std.specs.Prelude.{List, map};
    ghost use Rattle.type_table.specs.TypeRelations.Environment.{MethodRow};

    ghost Value = { List MethodRow };

    ghost use Rattle.type_table.specs.TypeRelations.Methods.{method_row};

    ghost view = { λ a. map (λ e. method_row e.0.items e.1) a.entries.entries };
}

impl MethodSet {
    /// No methods.
    pub fn new(alloc: Global) -> Self
        ensures { result ≡ [] }
    {
        MethodSet {
            entries: IndexMap::new(alloc),
        }
    }

    /// The method of this name.
    pub fn find(&self, name: &[u8]) -> Option<&Method>
        ensures { seen_method name.now result ≡ found_row name.now self.now }
    {
        self.entries.get(name)
    }

    /// Adds a method whose name is new.
    pub fn add(&mut self, name: Vec<u8>, method: Method) -> Result<(), NoMemory>
        requires { found_row name.items self.old ≡ None }
        ensures added { OnOk result (self.new ≡ self.old ++ method_row name.items method ∷ []) }
        ensures same { OnErr result (self.new ≡ self.old) }
    {
        self.entries.insert(name, method)?;
        Ok(())
    }
}
