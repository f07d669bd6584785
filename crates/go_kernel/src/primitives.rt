//! The table of primitives: what each may do.

ghost use Rattle.std.specs.Prelude.{◌≡◌, ℕ, false, List, [], ◌∷◌, ◌++◌, ◌≢◌, ℤ, pos};
ghost use Rattle.go_kernel.specs.Kernel.{Kind, Value, Number, Store, Op, Divide, Division, Shift, Direction, Checked};
ghost use Rattle.go_kernel.specs.Kernel.{Unchecked, effect, gives, prim, IsPure, IsLook, SeesMemory, IsCalm};
ghost use Rattle.go_kernel.specs.Kernel.{KeepsMemory, Keeps, Makes};

/// What the table says of a primitive, its answers keep (Go specification, "Run-time panics",
/// "Order of evaluation"): one that may not panic never does, whatever its operands; one that
/// doesn't write leaves the memory and prints nothing, and one that doesn't draw either leaves the
/// choices too; one that doesn't read gives the same values over each store, and one that doesn't draw
/// over each store with the same memory; and each gives its number of values.
#[tactic(auto, using(crate::proofs::Table::pure_is, crate::proofs::Table::look_is, crate::proofs::Table::calm_is, crate::proofs::Table::sees_memory, crate::proofs::Table::keeps_memory_is, crate::proofs::Table::keeps_is, crate::proofs::Table::makes))]
pub fn table_of_primitives()
    ensures calm { (o : Op) → (effect o).may_panic ≡ false → IsCalm o }
    ensures pure { (o : Op) → (effect o).may_panic ≡ false → (effect o).reads ≡ false → IsPure o }
    ensures look { (o : Op) → (effect o).may_panic ≡ false → (effect o).writes ≡ false → (effect o).draws ≡ false →
        IsLook o }
    ensures sees_memory { (o : Op) → (effect o).draws ≡ false → SeesMemory o }
    ensures keeps_memory { (o : Op) → (effect o).writes ≡ false → KeepsMemory o }
    ensures keeps { (o : Op) → (effect o).writes ≡ false → (effect o).draws ≡ false → Keeps o }
    ensures count { (o : Op) → Makes o (gives o) }
{}

/// A division by a number that isn't zero, and a shift by a count that isn't negative, give the same
/// checked and unchecked, whatever the other operands, so that a constant may stand in place of a
/// variable (Go specification, "Integer operators").
#[tactic(auto, using(crate::proofs::Table::divide_same, crate::proofs::Table::shift_same))]
pub fn constant_operands()
    ensures divide { (o : Division) (k l : Kind) (b : ℤ) (vs : List Value) (c : Store) → b ≢ pos 0 →
        prim (Divide Checked o k) (vs ++ Number l b ∷ []) c ≡ prim (Divide Unchecked o k) (vs ++ Number l b ∷ []) c }
    ensures shift { (d : Direction) (k l : Kind) (n : ℕ) (vs : List Value) (c : Store) →
        prim (Shift Checked d k) (vs ++ Number l (pos n) ∷ []) c
        ≡ prim (Shift Unchecked d k) (vs ++ Number l (pos n) ∷ []) c }
{}
