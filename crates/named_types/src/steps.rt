//! Steps along numbers, from each to the one that stands at its place in a table.

ghost use Rattle.std.specs.Prelude.{◌≡◌, ℕ, length, IfOk};
ghost use Rattle.named_types.specs.Steps.{after_steps, number_at};

use go_tree::NoMemory;
use std::alloc::Global;

/// The number at a place, or the place itself where the table has none.
pub fn number_at(numbers: &[usize], place: usize) -> usize
    ensures { result ≡ number_at numbers.now place }
{
    match numbers.get(place) {
        Some(number) => *number,
        None => place,
    }
}

/// A table in which each place has itself.
pub(crate) fn own_numbers(alloc: Global, count: usize) -> Result<Vec<usize>, NoMemory>
    ensures count { IfOk result (λ numbers. length numbers.items ≡ count) }
    ensures own { IfOk result (λ numbers. (t : ℕ) → number_at numbers.items t ≡ t) }
{
    let mut numbers = Vec::new(alloc);
    for t in 0..count {
        numbers.push(t)?;
    }
    Ok(numbers)
}

/// A step by one table and then a step by another.
fn both_steps(alloc: Global, first: &[usize], second: &[usize]) -> Result<Vec<usize>, NoMemory>
    requires { length first.now ≡ length second.now }
    ensures count { IfOk result (λ numbers. length numbers.items ≡ length first.now) }
    ensures are { IfOk result (λ numbers. (t : ℕ)
        → number_at numbers.items t ≡ number_at second.now (number_at first.now t)) }
{
    let mut numbers = Vec::new(alloc);
    for number in first {
        numbers.push(number_at(second, *number))?;
    }
    Ok(numbers)
}

/// Where so many steps by a table lead from each place. It takes a table for each halving of their
/// count, so that a long chain costs little more than a short one in whatever order its links stand,
/// and a circle is gone round as often as the count says.
pub(crate) fn after_steps(
    alloc: Global,
    next: &[usize],
    count: usize,
) -> Result<Vec<usize>, NoMemory>
    ensures count { IfOk result (λ numbers. length numbers.items ≡ length next.now) }
    ensures are { IfOk result (λ numbers. (t : ℕ) → number_at numbers.items t ≡ after_steps count next.now t) }
{
    if count == 0 {
        return own_numbers(alloc, next.len());
    }
    let half = after_steps(alloc, next, count / 2)?;
    let even = both_steps(alloc, &half, &half)?;
    if count % 2 == 0 {
        Ok(even)
    } else {
        both_steps(alloc, next, &even)
    }
}
