//! The first obstacle of a call.

ghost use Rattle.std.specs.Prelude.{◌≡◌, Bool, List, IfOk};
ghost use Rattle.std.specs.Option.{option_map};
ghost use Rattle.constant_forms.specs.Told.{path_at};
ghost use Rattle.constant_forms.specs.Views.{obstacle_of};
ghost use Rattle.run_rules.specs.Calls.{Call};
ghost use Rattle.run_rules.specs.FormTrees.{FormKind};
ghost use Rattle.run_rules.specs.ImportRules.Laid.{CommentsAscend};
ghost use Rattle.run_rules.specs.Obstacles.{first_answer};
ghost use Rattle.run_rules.specs.Reduced.{call_obstacle};
ghost use Rattle.run_rules.specs.Run.{Standing, is_commented};
ghost use Rattle.run_rules.specs.Sites.{MarkRef, Site};
ghost use Rattle.run_rules.specs.Steps.{At, same_here};
ghost use Rattle.call_obstacles.specs.Calls.{IsToldUse};
ghost use Rattle.call_obstacles.specs.Told.{hidden_told, internal_told, obstacle_told, refused_path};
ghost use Rattle.call_obstacles.specs.Told.{shadowed_told, spoiled_told};

use crate::uses::CallUse;
use comments_within::comment_lies_in;
use constant_forms::Obstacle;
use go_tree::{Name, NoMemory, Text};
use pkg_graph::{Package, may_import};
use std::alloc::Global;

/// The path of the package with this number, where there is one.
fn path_of<'a>(packages: &'a [Package], number: usize) -> &'a [u8]
    ensures { result.now ≡ path_at packages.now number }
{
    match packages.get(number) {
        None => &[],
        Some(package) => package.path.items(),
    }
}

/// The path of the package with this number, where the package of the call may not import it (the go command's
/// documentation, Internal Directories).
fn refused_path<'a>(use_: &CallUse<'a>, number: usize) -> Option<&'a [u8]>
    ensures { option_map (λ p. p.now) result ≡ refused_path use_.now number }
{
    let path = path_of(use_.packages, number);
    if may_import(path_of(use_.packages, use_.there), path) {
        None
    } else {
        Some(path)
    }
}

/// That of the first package that the form needs.
fn first_refused<'a>(use_: &CallUse<'a>) -> Option<&'a [u8]>
    ensures { option_map (λ p. p.now) result ≡ first_answer (refused_path use_.now) use_.now.needed.now }
{
    for number in use_.needed {
        match refused_path(use_, *number) {
            Some(path) => return Some(path),
            None => {}
        }
    }
    None
}

fn internal_package(alloc: Global, use_: &CallUse) -> Result<Option<Obstacle>, NoMemory>
    ensures { IfOk result (λ o. option_map obstacle_of o ≡ internal_told use_.now) }
{
    match first_refused(use_) {
        None => Ok(None),
        Some(path) => Ok(Some(Obstacle::Internal(Text::copied(alloc, path)?))),
    }
}

fn not_accessible(alloc: Global, use_: &CallUse) -> Result<Option<Obstacle>, NoMemory>
    ensures { IfOk result (λ o. option_map obstacle_of o ≡ hidden_told use_.now) }
{
    match use_.hidden {
        None => Ok(None),
        Some(name) => {
            let name = Name::copied(alloc, name.items())?;
            Ok(Some(Obstacle::NotAccessible(name)))
        }
    }
}

fn shadowed(alloc: Global, use_: &CallUse) -> Result<Option<Obstacle>, NoMemory>
    ensures { IfOk result (λ o. option_map obstacle_of o ≡ shadowed_told use_.now) }
{
    match use_.shadowed {
        None => Ok(None),
        Some(name) => {
            let name = Name::copied(alloc, name.items())?;
            Ok(Some(Obstacle::Shadowed(name)))
        }
    }
}

/// What the call itself is.
fn spoiled(use_: &CallUse) -> Option<Obstacle>
    requires { CommentsAscend 0 use_.now.comments.now }
    ensures { option_map obstacle_of result ≡ spoiled_told use_.now }
{
    if use_.recursive {
        return Some(Obstacle::Recursive);
    }
    if comment_lies_in(use_.comments, use_.span) {
        return Some(Obstacle::CommentInside);
    }
    if use_.spread {
        return Some(Obstacle::Spread);
    }
    if use_.repeated {
        return Some(Obstacle::Repeated);
    }
    None
}

/// The first obstacle of what is told.
fn first_obstacle(alloc: Global, use_: &CallUse) -> Result<Option<Obstacle>, NoMemory>
    requires { CommentsAscend 0 use_.now.comments.now }
    ensures { IfOk result (λ o. option_map obstacle_of o ≡ obstacle_told use_.now) }
{
    if let Some(hidden) = not_accessible(alloc, use_)? {
        return Ok(Some(hidden));
    }
    if let Some(internal) = internal_package(alloc, use_)? {
        return Ok(Some(internal));
    }
    if let Some(shadowed) = shadowed(alloc, use_)? {
        return Ok(Some(shadowed));
    }
    Ok(spoiled(use_))
}

/// What keeps a call from a form, the first of: a name that isn't exported, a package that may not be imported, a name
/// that means something else at the call, a cycle of marked functions, a comment within what is replaced, a method's
/// spread arguments, a repeated expression. An error where memory is refused.
///
/// It takes one comparison of paths for each package that the form needs, and a search among the comments.
pub fn obstacle_of_call(alloc: Global, use_: &CallUse) -> Result<Option<Obstacle>, NoMemory>
    requires { CommentsAscend 0 use_.now.comments.now }
    ensures told { IfOk result (λ o. option_map obstacle_of o ≡ obstacle_told use_.now) }
    ensures first { IfOk result (λ o. (marks : List MarkRef) (st : Standing) (x : Site At) (c : Call At)
        (kept : List Bool) (k : FormKind) → IsToldUse marks st x c kept k use_.now
        → option_map obstacle_of o ≡ call_obstacle same_here (is_commented st) st.packages marks x c kept k) }
{
    let found = first_obstacle(alloc, use_)?;
    Ok(found)
}
