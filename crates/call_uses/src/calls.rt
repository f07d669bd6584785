//! Calls among parts.

ghost use Rattle.std.specs.Prelude.{◌≡◌, ◌++◌, false, IfOk, OnOk, drop, map};
ghost use Rattle.go_tree.specs.View.{expr_of};
ghost use Rattle.go_tree.specs.GoTypes.Answers.{given};
ghost use Rattle.run_rules.specs.Sites.{an_expr};
ghost use Rattle.member_uses.specs.PossibleUses.Views.{part_of};
ghost use Rattle.member_uses.specs.Uses.{import_at, name_alone, package_at, part_uses, used};
ghost use Rattle.member_uses.specs.Views.{names_in, used_of};
ghost use Rattle.call_uses.specs.Calls.{call_part, call_uses};

use go_tree::scope_names::Entity;
use go_tree::{Expr, Name, NoMemory, Span};
use member_uses::possible_uses::PartRef;
use member_uses::{FileScopes, MemberUse};
use std::alloc::Global;

/// The package of the file, where the name means a member of its block at the byte.
fn own_package(file: &FileScopes, name: &Name, at: u32) -> Option<usize>
    ensures { result ≡ package_at (names_in file.now) name.now at }
{
    match file.scopes.lookup(name, at) {
        Some(Entity::Package(_)) => Some(file.home),
        _ => None,
    }
}

/// The package for which the name stands at the byte.
fn named_package(file: &FileScopes, name: &Name, at: u32) -> Option<usize>
    ensures { result ≡ import_at (names_in file.now) name.now at }
{
    match file.scopes.lookup(name, at) {
        Some(Entity::Import(number)) => file.imports.get(number as usize).copied(),
        _ => None,
    }
}

/// The package that stands before a dot, where a name alone does.
fn base_package(file: &FileScopes, base: &Expr, at: u32) -> Option<usize>
    ensures { result ≡ given (name_alone (expr_of base.now)) (λ q. import_at (names_in file.now) q at) }
{
    match base {
        Expr::Ident { name, .. } => named_package(file, name, at),
        _ => None,
    }
}

/// One more call, where there is a package.
fn put<'a>(
    span: Span,
    home: Option<usize>,
    name: &'a Name,
    calls: &mut Vec<MemberUse<'a>>,
) -> Result<(), NoMemory>
    ensures { OnOk result (map used_of calls.new.items ≡ map used_of calls.old.items ++ used span false home name.now) }
{
    if let Some(package) = home {
        calls.push(MemberUse {
            span,
            package,
            name,
            is_key: false,
        })?;
    }
    Ok(())
}

/// The member that a callee names, in a call that stands there.
fn add_callee<'a>(
    file: &FileScopes,
    span: Span,
    callee: &'a Expr,
    calls: &mut Vec<MemberUse<'a>>,
) -> Result<(), NoMemory>
    ensures { OnOk result (map used_of calls.new.items ≡ map used_of calls.old.items
        ++ part_uses (λ s. span) (names_in file.now) false (an_expr (expr_of callee.now))) }
{
    match callee {
        Expr::Ident { name, .. } => put(span, own_package(file, name, span.start), name, calls),
        Expr::Selector { base, name, .. } => {
            put(
                span,
                base_package(file, base, span.start),
                &name.name,
                calls,
            )
        }
        _ => Ok(()),
    }
}

/// The member that an expression calls.
fn add_expr<'a>(
    file: &FileScopes,
    e: &'a Expr,
    calls: &mut Vec<MemberUse<'a>>,
) -> Result<(), NoMemory>
    ensures { OnOk result (map used_of calls.new.items ≡ map used_of calls.old.items
        ++ call_part (λ s. s) (names_in file.now) (an_expr (expr_of e.now))) }
{
    match e {
        Expr::Call { span, callee, .. } => add_callee(file, *span, callee, calls),
        _ => Ok(()),
    }
}

/// The member that a part calls.
fn add_part<'a>(
    file: &FileScopes,
    part: PartRef<'a>,
    calls: &mut Vec<MemberUse<'a>>,
) -> Result<(), NoMemory>
    ensures { OnOk result (map used_of calls.new.items ≡ map used_of calls.old.items
        ++ call_part (λ s. s) (names_in file.now) (part_of part.entry).part) }
{
    match part {
        PartRef::Expr(e) => add_expr(file, e, calls),
        PartRef::Key(e) => add_expr(file, e, calls),
        PartRef::Type(_) => Ok(()),
        PartRef::Receiver(_) => Ok(()),
    }
}

/// The members of package blocks that calls among parts of a declaration name, in the order of the calls' ends: each
/// with where its call stands, the number of the package, and the member's name (Go specification, Calls; Qualified
/// identifiers). An error where memory is refused. It takes one look-up a call.
pub fn call_uses<'a>(
    alloc: Global,
    file: &FileScopes,
    parts: &[PartRef<'a>],
) -> Result<Vec<MemberUse<'a>>, NoMemory>
    ensures { IfOk result (λ calls. map used_of calls.items ≡ call_uses (λ s. s) (names_in file.now) (map part_of parts.now)) }
{
    let mut calls = Vec::new(alloc);
    for part in parts {
        add_part(file, *part, &mut calls)?;
    }
    Ok(calls)
}
