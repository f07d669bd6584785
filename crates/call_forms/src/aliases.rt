//! What a use of a marked alias becomes: the type that it stands for.

ghost use Rattle.std.specs.Prelude.{◌≡◌, Bool, IfOk, List, ℕ};
ghost use Rattle.std.specs.Option.{option_map};
ghost use Rattle.go_tree.specs.Tree as tree;
ghost use Rattle.go_tree.specs.Tree.{named, type_operand};
ghost use Rattle.go_tree.specs.View.{expr_of, name_at_of, type_of};
ghost use Rattle.pkg_graph.specs.Package.{Package};
ghost use Rattle.run_rules.specs.FormTrees.{type_expr};
ghost use Rattle.run_rules.specs.Naming.{Names};
ghost use Rattle.run_rules.specs.Run.{here_of};
ghost use Rattle.run_rules.specs.Sites.{MarkRef, Site, Where};
ghost use Rattle.run_rules.specs.Steps.{At, same_here};
ghost use Rattle.call_forms.specs.Aliases.{IsToldAlias, IsAliasType, IsAliasExpr};
ghost use Rattle.call_forms.specs.Written.{told, written_package, written_type};

use crate::exprs::{qualified, written_ident};
use crate::qualifiers::There;
use crate::types::written_type;
use go_tree::{Expr, Name, NameAt, NoMemory, Span, TypeExpr, star_expr, type_operand_expr};
use std::alloc::Global;

/// The name of a type as an expression, behind that of a package where one stands there or is told.
fn type_name(
    alloc: Global,
    there: &There,
    span: Span,
    before: &Option<NameAt>,
    name: &Name,
) -> Result<Expr, NoMemory>
    ensures { IfOk result (λ e. expr_of e ≡ type_expr there.now.span (named there.now.span
        (written_package there.now (told there.now span) (option_map name_at_of before.now))
        (record { span = there.now.span; name = name.now }))) }
{
    match before {
        None => written_ident(alloc, there, span, name),
        Some(before) => match there.qualifiers.at(span) {
            None => qualified(alloc, there, &before.name, name),
            Some(package) => qualified(alloc, there, package, name),
        },
    }
}

fn type_operand(alloc: Global, there: &There, of: &TypeExpr) -> Result<Box<Expr>, NoMemory>
    ensures { IfOk result (λ e. expr_of e.value
        ≡ type_operand there.now.span (written_type there.now (type_of of.now))) }
{
    Ok(Box::new(
        alloc,
        type_operand_expr(there.span, written_type(alloc, there, of)?),
    )?)
}

fn type_as_expr(alloc: Global, there: &There, of: &TypeExpr) -> Result<Box<Expr>, NoMemory>
    ensures { IfOk result (λ e. expr_of e.value
        ≡ type_expr there.now.span (written_type there.now (type_of of.now))) }
{
    match of {
        TypeExpr::Named {
            span,
            package,
            name,
        } => Ok(Box::new(alloc, type_name(alloc, there, *span, package, &name.name)?)?),
        TypeExpr::Pointer { to, .. } => {
            let operand = type_as_expr(alloc, there, to)?;
            Ok(Box::new(alloc, star_expr(there.span, operand))?)
        }
        TypeExpr::Slice { .. } => type_operand(alloc, there, of),
        TypeExpr::Map { .. } => type_operand(alloc, there, of),
        TypeExpr::Struct { .. } => type_operand(alloc, there, of),
    }
}

/// What a use of a marked alias becomes where a type stands: the type that the alias stands for, whose names have the
/// names of packages before them that they need there (Go specification, Alias declarations; Qualified identifiers). An
/// error where memory is refused.
pub fn alias_type(alloc: Global, there: &There, of: &TypeExpr) -> Result<TypeExpr, NoMemory>
    ensures { IfOk result (λ r. (commented : ℕ → ℕ → At → Bool) (ps : List (Package At)) (marks : List MarkRef)
        (x : Site At) (home : Where At) (t : tree.TypeExpr At) (names : Names)
        → IsToldAlias here_of same_here commented ps marks x home t names there.now (type_of of.now)
        → IsAliasType here_of same_here commented ps marks x home t names (type_of r)) }
{
    let tree = written_type(alloc, there, of)?;
    Ok(tree)
}

/// The same where an expression stands, as what a conversion calls: a type that begins with `*` is the operand of a
/// star, so it is written in parentheses there (Go specification, Conversions). An error where memory is refused.
pub fn alias_expr(alloc: Global, there: &There, of: &TypeExpr) -> Result<Box<Expr>, NoMemory>
    ensures { IfOk result (λ r. (commented : ℕ → ℕ → At → Bool) (ps : List (Package At)) (marks : List MarkRef)
        (x : Site At) (home : Where At) (t : tree.TypeExpr At) (names : Names)
        → IsToldAlias here_of same_here commented ps marks x home t names there.now (type_of of.now)
        → IsAliasExpr here_of same_here commented ps marks x home t names (expr_of r.value)) }
{
    let tree = type_as_expr(alloc, there, of)?;
    Ok(tree)
}
