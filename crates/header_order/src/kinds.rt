//! Refused headers by kinds, and marks of all of them.

ghost use Rattle.std.specs.Prelude.{◌≡◌, false, replicate, IfOk};
ghost use Rattle.header_order.specs.Kinds.{mark, mark_all, marks_of};

use go_tree::NoMemory;
use std::alloc::Global;

/// The numbers of the headers that are refused, by kinds, each in their order; values are constants and
/// variables.
#[derive(Drop)]
pub struct RefusedHeaders {
    pub types: Vec<usize>,
    pub values: Vec<usize>,
    pub functions: Vec<usize>,
    pub methods: Vec<usize>,
}

/// So many marks, none of them set.
fn no_marks(alloc: Global, count: usize) -> Result<Vec<bool>, NoMemory>
    ensures { IfOk result (λ marks. marks.items ≡ replicate count false) }
{
    let mut marks = Vec::new(alloc);
    for _ in 0..count {
        marks.push(false)?;
    }
    Ok(marks)
}

/// Sets the mark at a place, if there is one.
fn mark(marks: &mut Vec<bool>, number: usize)
    ensures { marks.new.items ≡ mark number marks.old.items }
{
    if number < marks.len() {
        marks[number] = true;
    }
}

/// Sets the marks at several places.
fn mark_all(marks: &mut Vec<bool>, numbers: &[usize])
    ensures { marks.new.items ≡ mark_all numbers.now marks.old.items }
{
    for number in numbers {
        mark(marks, *number);
    }
}

/// For each of so many headers whether it is refused. The error is want of memory.
pub fn refused_marks(
    alloc: Global,
    count: usize,
    refused: &RefusedHeaders,
) -> Result<Vec<bool>, NoMemory>
    ensures { IfOk result (λ marks. marks.items ≡ marks_of count refused.now) }
{
    let mut marks = no_marks(alloc, count)?;
    mark_all(&mut marks, &refused.types);
    mark_all(&mut marks, &refused.values);
    mark_all(&mut marks, &refused.functions);
    mark_all(&mut marks, &refused.methods);
    Ok(marks)
}
