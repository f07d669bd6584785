//! Numbers in the order in which a walk in depth leaves them. What is made of it is tested, so nothing rests on it.

ghost use Rattle.std.specs.Prelude.{◌≡◌, length};

use go_tree::NoMemory;
use pkg_graph::import_order::rows::Rows;
use std::alloc::Global;

/// Marks a number, and puts it among the steps as one to be left, behind all that it links to.
fn enter(
    links: &Rows,
    k: usize,
    seen: &mut [bool],
    steps: &mut Vec<(usize, bool)>,
) -> Result<(), NoMemory>
    ensures { length seen.new ≡ length seen.old }
{
    if k < links.len() && k < seen.len() && !seen[k] {
        seen[k] = true;
        steps.push((k, true))?;
        for m in links.row(k) {
            steps.push((*m, false))?;
        }
    }
    Ok(())
}

/// Adds the numbers that links lead to from those of the steps, as a walk in depth leaves them.
fn leave_from(
    links: &Rows,
    steps: &mut Vec<(usize, bool)>,
    seen: &mut [bool],
    left: &mut Vec<usize>,
) -> Result<(), NoMemory>
    ensures { length seen.new ≡ length seen.old }
{
    for round in 0..u64::MAX {
        let _ = round;
        match steps.pop() {
            None => return Ok(()),
            Some((k, true)) => left.push(k)?,
            Some((k, false)) => enter(links, k, seen, steps)?,
        }
    }
    Ok(())
}

/// The numbers as a walk in depth leaves them: each behind those that links lead to from it and that don't lead back.
pub(crate) fn left_in_turn(alloc: Global, links: &Rows) -> Result<Vec<usize>, NoMemory> {
    let mut seen = vec![in alloc; false; links.len()]?;
    let mut left = Vec::new(alloc);
    let mut steps = Vec::new(alloc);
    for k in 0..links.len() {
        steps.push((k, false))?;
        leave_from(links, &mut steps, &mut seen, &mut left)?;
    }
    Ok(left)
}
