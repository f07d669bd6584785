//! What a use of a marked constant becomes.

ghost use Rattle.std.specs.Prelude.{◌≡◌, ◌<◌, IfOk, length, Some, List, ℕ, Bool};
ghost use Rattle.std.specs.Option.{option_map};
ghost use Rattle.go_tree.specs.FileView.{file_of};
ghost use Rattle.go_tree.specs.Tree.{NameAt, Expr};
ghost use Rattle.run_rules.specs.ImportRules.Laid.{CommentsAscend};
ghost use Rattle.scope_tables.specs.Table.{IsTableOf, table_of};
ghost use Rattle.pkg_graph.specs.Package.{Package};
ghost use Rattle.run_rules.specs.Sites.{MarkRef, Where, Site};
ghost use Rattle.run_rules.specs.Steps.{At};
ghost use Rattle.constant_forms.specs.Views.{obstacle_of};
ghost use Rattle.constant_forms.specs.Told.{AreInPackages, IsFormOf, obstacle_told};
ghost use Rattle.constant_forms.specs.Uses.{IsUse, IsReducedTo};

use crate::obstacles::{Obstacle, first_obstacle};
use crate::packages::{NamedPackage, named_package};
use crate::uses::{ConstantUse, value_name};
use go_tree::{Name, NoMemory, Span};
use std::alloc::Global;

/// The name that is written in the place of a use, behind that of its package where that has to stand, and the span of
/// the use.
#[derive(Drop)]
pub struct ConstantForm {
    pub span: Span,
    pub package: Option<NamedPackage>,
    pub name: Name,
}

/// What a use of a constant becomes: the name that the constant is declared as, or nothing, by an obstacle.
#[derive(Drop)]
pub enum ReducedConstant {
    Becomes(ConstantForm),
    Kept(Obstacle),
}

/// The form of the use.
fn form(alloc: Global, use_: &ConstantUse) -> Result<ConstantForm, NoMemory>
    requires packages { AreInPackages use_.now }
    requires table { IsTableOf use_.now.names.now (file_of use_.now.file.now) (table_of use_.now.scopes.now) }
    ensures { IfOk result (λ f. IsFormOf use_.now f) }
{
    let name = Name::copied(alloc, value_name(use_.value).items())?;
    match use_.needed_package() {
        None => Ok(ConstantForm {
            span: use_.span,
            package: None,
            name,
        }),
        Some(number) => {
            let package = named_package(alloc, use_, number)?;
            Ok(ConstantForm {
                span: use_.span,
                package: Some(package),
                name,
            })
        }
    }
}

/// What a use of a marked constant becomes (Go specification, Constant declarations; Qualified identifiers): the name
/// that the constant is declared as, behind the name that its package has at the use, with the import that has to be
/// added for it; or the first obstacle that keeps it.
///
/// An error where memory is refused. A look at the use takes a search in the table of scopes and one among the
/// comments; a form that needs a package is linear in the file and the names around.
pub fn reduced_constant(alloc: Global, use_: &ConstantUse) -> Result<ReducedConstant, NoMemory>
    requires packages { AreInPackages use_.now }
    requires table { IsTableOf use_.now.names.now (file_of use_.now.file.now) (table_of use_.now.scopes.now) }
    requires ascend { CommentsAscend 0 use_.now.comments.now }
    ensures { IfOk result (λ r. (ps : List (Package At)) (commented : ℕ → ℕ → At → Bool) (marks : List MarkRef)
        (x : Site At) (home : Where At) (n : NameAt At) (e : Expr At) → IsUse ps commented x home n e use_.now
        → IsReducedTo ps commented marks x r) }
{
    match first_obstacle(alloc, use_)? {
        Some(kept) => Ok(ReducedConstant::Kept(kept)),
        None => {
            let form = form(alloc, use_)?;
            Ok(ReducedConstant::Becomes(form))
        }
    }
}
