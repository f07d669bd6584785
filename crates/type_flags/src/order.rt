//! The order in which flags follow from one another: each type after those that it holds by value
//! (Go specification, Struct types; Underlying types).

ghost use Rattle.std.specs.Prelude.{◌≡◌, ◌<◌, length};
ghost use Rattle.type_table.specs.TypeRelations.Environment.{IsEnvironment};
ghost use Rattle.type_flags.specs.Flags.{SoundFlags};

use crate::flags::set_flag;
use go_tree::NoMemory;
use std::alloc::Global;
use type_table::type_relations::Env;
use type_table::{TypeId, TypeNode};

/// A step of the walk: into a type, or out of it after those that it holds.
#[derive(Clone, Copy, Drop)]
enum Step {
    Into(usize),
    OutOf(usize),
}

/// Sets flags, those of the types that a type holds before its own.
pub(crate) fn set_in_order(alloc: Global, env: &Env, flags: &mut [bool]) -> Result<(), NoMemory>
    requires good { IsEnvironment env.now }
    requires count { length flags.old ≡ length env.now.rows }
    ensures count { length flags.new ≡ length flags.old }
    ensures sound { SoundFlags env.now flags.old → SoundFlags env.now flags.new }
{
    let mut seen = vec![in alloc; false; flags.len()]?;
    let mut steps = Vec::new(alloc);
    for t in 0..flags.len() {
        steps.push(Step::Into(t))?;
        walk(env, flags, &mut seen, &mut steps)?;
    }
    Ok(())
}

/// Walks until no step is left.
fn walk(
    env: &Env,
    flags: &mut [bool],
    seen: &mut [bool],
    steps: &mut Vec<Step>,
) -> Result<(), NoMemory>
    requires good { IsEnvironment env.now }
    requires count { length flags.old ≡ length env.now.rows }
    ensures count { length flags.new ≡ length flags.old }
    ensures sound { SoundFlags env.now flags.old → SoundFlags env.now flags.new }
{
    for _ in 0..u64::MAX {
        match steps.pop() {
            Some(Step::Into(t)) => {
                if t < seen.len() && !seen[t] {
                    seen[t] = true;
                    steps.push(Step::OutOf(t))?;
                    push_held(env, TypeId(t), steps)?;
                }
            }
            Some(Step::OutOf(t)) => {
                if t < flags.len() {
                    set_flag(env, flags, t);
                }
            }
            None => return Ok(()),
        }
    }
    Ok(())
}

/// Adds steps into the types that a type holds by value.
fn push_held(env: &Env, t: TypeId, steps: &mut Vec<Step>) -> Result<(), NoMemory> {
    if !env.has(t) {
        return Ok(());
    }
    match env.node(t) {
        TypeNode::Named { .. } => steps.push(Step::Into(env.under(t).0))?,
        TypeNode::Struct(fields) => {
            for field in &fields.items {
                steps.push(Step::Into(field.of.0))?;
            }
        }
        _ => {}
    }
    Ok(())
}
