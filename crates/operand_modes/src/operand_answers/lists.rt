//! What expressions in order are, and where they stand (Go specification, Calls; Assignment statements).

ghost use Rattle.std.specs.Prelude.{◌≡◌, [], ◌∷◌, ◌++◌, OnOk};

use crate::Operand;
use crate::operand_answers::located::Located;
use go_tree::NoMemory;
use operator_rules::access_rules::Place;
use std::alloc::Global;

/// What expressions in order are, and where they stand.
#[derive(Drop)]
pub struct OperandList {
    pub operands: Vec<Operand>,
    pub places: Vec<Place>,
}

impl OperandList {
    /// No expressions.
    pub fn new(alloc: Global) -> Self
        ensures operands { result.operands.items ≡ [] }
        ensures places { result.places.items ≡ [] }
    {
        OperandList {
            operands: Vec::new(alloc),
            places: Vec::new(alloc),
        }
    }

    /// One more, behind the others.
    pub fn push(&mut self, x: Located) -> Result<(), NoMemory>
        ensures operands { OnOk result (self.new.operands.items ≡ self.old.operands.items ++ x.operand ∷ []) }
        ensures places { OnOk result (self.new.places.items ≡ self.old.places.items ++ x.place ∷ []) }
    {
        self.operands.push(x.operand)?;
        self.places.push(x.place)?;
        Ok(())
    }
}
