//! Names that mean something else at a use.

ghost use Rattle.std.specs.Prelude.{◌≡◌, ℕ, List, IfOk, drop, map};
ghost use Rattle.std.specs.Option.{option_map};
ghost use Rattle.go_tree.specs.File as file;
ghost use Rattle.go_tree.specs.GoTypes.Answers.{given};
ghost use Rattle.go_tree.specs.FileView.{decl_of};
ghost use Rattle.go_tree.specs.View.{expr_of, type_of};
ghost use Rattle.constant_forms.specs.Told.{is_another, means_member, means_universe};
ghost use Rattle.member_uses.specs.PossibleUses.Parts.{parts_of};
ghost use Rattle.member_uses.specs.PossibleUses.Views.{part_of};
ghost use Rattle.member_uses.specs.Views.{names_in};
ghost use Rattle.pkg_graph.specs.Package.{Package};
ghost use Rattle.repeated_parts.specs.Flags.{flags_of};
ghost use Rattle.repeated_parts.specs.LiteralTypes.Views.{numbers_of};
ghost use Rattle.repeated_parts.specs.UsesRepeated.Uses.{first_flag};
ghost use Rattle.run_rules.specs.Obstacles.{first_answer, shadowed_here};
ghost use Rattle.run_rules.specs.Programs.{decl_seen};
ghost use Rattle.run_rules.specs.Respanned.{decl_with};
ghost use Rattle.run_rules.specs.Run.{here_of};
ghost use Rattle.run_rules.specs.Sites.{Where, a_type_part, an_expr};
ghost use Rattle.run_rules.specs.Steps.{At};
ghost use Rattle.run_rules.specs.Surroundings.{Place};
ghost use Rattle.shadowed_names.specs.Told.{first_told, shadowed_from, shadowed_part};
ghost use Rattle.shadowed_names.specs.Uses.{IsToldUse};

use crate::places::UsePlace;
use go_tree::scope_names::Entity;
use go_tree::{Decl, Expr, Name, NoMemory, TypeExpr};
use member_uses::FileScopes;
use member_uses::possible_uses::{PartRef, decl_parts};
use repeated_parts::literal_types::TypeScopes;
use repeated_parts::repeated_parts;
use std::alloc::Global;

fn means_universe(number: u32, here: Option<Entity>) -> bool
    ensures { result ≡ means_universe number here }
{
    match here {
        Some(Entity::Universe(other)) => other == number,
        _ => false,
    }
}

fn means_member(here: Option<Entity>) -> bool
    ensures { result ≡ means_member here }
{
    match here {
        Some(Entity::Package(_)) => true,
        _ => false,
    }
}

/// Whether what a name means at the use differs from what it means where it is written, if it stays as it is.
fn is_another(meaning: Option<Entity>, elsewhere: bool, here: Option<Entity>) -> bool
    ensures { result ≡ is_another meaning elsewhere here }
{
    match meaning {
        Some(Entity::Universe(number)) => !means_universe(number, here),
        Some(Entity::Package(_)) => !elsewhere && !means_member(here),
        _ => false,
    }
}

/// The name, where it means something else at the use than at this byte.
fn shadowed_from<'a>(
    home: &FileScopes,
    there: &UsePlace,
    name: &'a Name,
    from: u32,
) -> Option<&'a Name>
    ensures { option_map (λ n. n.now) result
        ≡ shadowed_from (names_in home.now) (names_in there.now.file) there.now.at from name.now }
{
    let meaning = home.scopes.lookup(name, from);
    let here = there.file.scopes.lookup(name, there.at);
    if is_another(meaning, home.home != there.file.home, here) {
        Some(name)
    } else {
        None
    }
}

fn shadowed_expr<'a>(home: &FileScopes, there: &UsePlace, e: &'a Expr) -> Option<&'a Name>
    ensures { option_map (λ n. n.now) result ≡ shadowed_part (λ s. s) (names_in home.now)
        (names_in there.now.file) there.now.at (an_expr (expr_of e.now)) }
{
    match e {
        Expr::Ident { span, name } => shadowed_from(home, there, name, span.start),
        _ => None,
    }
}

fn shadowed_type<'a>(home: &FileScopes, there: &UsePlace, t: &'a TypeExpr) -> Option<&'a Name>
    ensures { option_map (λ n. n.now) result ≡ shadowed_part (λ s. s) (names_in home.now)
        (names_in there.now.file) there.now.at (a_type_part (type_of t.now)) }
{
    match t {
        TypeExpr::Named {
            span,
            package: None,
            name,
        } => shadowed_from(home, there, &name.name, span.start),
        _ => None,
    }
}

/// The name that a part is by itself, where it means something else at the use.
fn shadowed_part<'a>(home: &FileScopes, there: &UsePlace, part: PartRef<'a>) -> Option<&'a Name>
    ensures { option_map (λ n. n.now) result ≡ shadowed_part (λ s. s) (names_in home.now)
        (names_in there.now.file) there.now.at (part_of part.entry).part }
{
    match part {
        PartRef::Expr(e) => shadowed_expr(home, there, e),
        PartRef::Key(e) => shadowed_expr(home, there, e),
        PartRef::Type(t) => shadowed_type(home, there, t),
        PartRef::Receiver(name) => shadowed_from(home, there, &name.name, name.span.start),
    }
}

/// The flag with this number; none for a key that names a field.
fn flag_at(flags: &[Option<bool>], at: usize) -> Option<bool>
    ensures { result ≡ first_flag (drop at flags.now) }
{
    match flags.get(at) {
        None => None,
        Some(flag) => *flag,
    }
}

/// The same of the part with this number, but for a key that names a field.
fn flagged_part<'a>(
    home: &FileScopes,
    there: &UsePlace,
    part: PartRef<'a>,
    flags: &[Option<bool>],
    at: usize,
) -> Option<&'a Name>
    ensures { option_map (λ n. n.now) result ≡ given (first_flag (drop at flags.now)) (λ m. shadowed_part (λ s. s)
        (names_in home.now) (names_in there.now.file) there.now.at (part_of part.entry).part) }
{
    match flag_at(flags, at) {
        None => None,
        Some(_) => shadowed_part(home, there, part),
    }
}

/// The first such name of parts, but for keys that name fields.
fn first_shadowed<'a>(
    home: &FileScopes,
    there: &UsePlace,
    parts: &[PartRef<'a>],
    flags: &[Option<bool>],
) -> Option<&'a Name>
    ensures { option_map (λ n. n.now) result ≡ first_told (shadowed_part (λ s. s) (names_in home.now)
        (names_in there.now.file) there.now.at) (map part_of parts.now) flags.now }
{
    for (at, part) in parts.iter().enumerate() {
        match flagged_part(home, there, *part, flags, at) {
            Some(name) => return Some(name),
            None => {}
        }
    }
    None
}

/// The first name that a declaration writes by itself and that means something else at a use, where it is written as it
/// stands: a predeclared name, or a member of the package, where the use stands in the same one (Go specification,
/// Declarations and scope; Qualified identifiers). Names behind dots and keys that name fields are none. An error where
/// memory is refused.
///
/// Linear in the declaration, with two look-ups for each name, and one for each literal.
pub fn shadowed_name<'a>(
    alloc: Global,
    home: &TypeScopes,
    decl: &'a Decl,
    there: &UsePlace,
) -> Result<Option<&'a Name>, NoMemory>
    ensures told { IfOk result (λ r. option_map (λ n. n.now) r ≡ first_told (shadowed_part (λ s. s)
        (names_in home.now.file) (names_in there.now.file) there.now.at)
        (parts_of (decl_of decl.now)) (flags_of (numbers_of home.now) (decl_of decl.now))) }
    ensures first { IfOk result (λ r. (ps : List (Package At)) (w use_ : Where At) (p : Place At) (i : ℕ)
        (d : file.Decl At) → IsToldUse ps w use_ p home.now there.now i d → decl_of decl.now ≡ decl_with here_of d
        → option_map (λ n. n.now) r
        ≡ first_answer (shadowed_here ps w use_ p) (decl_seen ps w.number w.of w.source.tree d)) }
{
    let parts = decl_parts(alloc, decl)?;
    let flags = repeated_parts(alloc, home, decl)?;
    let found = first_shadowed(&home.file, there, &parts, &flags);
    Ok(found)
}
