//! Chains of declared types by their numbers (Go specification, Underlying types).

ghost use Rattle.std.specs.Prelude.{◌≡◌, ℕ, length, IfOk};
ghost use Rattle.defined_types.specs.DeclaredTypes.{AreDeclared};
ghost use Rattle.value_rounds.specs.UnderlyingTypes.Chains.{under_number};
ghost use Rattle.named_types.specs.Steps.{number_at};
ghost use Rattle.named_types.specs.Defining.{next_number};

use crate::steps::{after_steps, own_numbers};
use defined_types::DeclaredType;
use go_tree::NoMemory;
use std::alloc::Global;
use type_table::type_relations::Env;

/// For each type by its number the one that it is declared as, or itself where it isn't declared.
pub fn next_numbers(
    alloc: Global,
    types: &Env,
    declared: &[DeclaredType],
) -> Result<Vec<usize>, NoMemory>
    requires { AreDeclared types.now declared.now }
    ensures count { IfOk result (λ next. length next.items ≡ length types.now.rows) }
    ensures are { IfOk result (λ next. (t : ℕ) → number_at next.items t ≡ next_number declared.now t) }
{
    let mut next = own_numbers(alloc, types.len())?;
    for count in 0..declared.len() {
        let link = declared[declared.len() - 1 - count];
        next[link.named.0] = link.of.0;
    }
    Ok(next)
}

/// For each type by its number the one at the end of its chain of declared types.
pub(crate) fn under_numbers(
    alloc: Global,
    types: &Env,
    declared: &[DeclaredType],
) -> Result<Vec<usize>, NoMemory>
    requires { AreDeclared types.now declared.now }
    ensures { IfOk result (λ unders. (t : ℕ)
        → number_at unders.items t ≡ under_number (length declared.now) declared.now t) }
{
    let next = next_numbers(alloc, types, declared)?;
    after_steps(alloc, &next, declared.len())
}
