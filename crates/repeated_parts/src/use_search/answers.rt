//! What a use of a marked constant becomes, or what keeps it.

ghost use Rattle.std.specs.Prelude.{◌≡◌, ◌≤◌, ◌<◌, ◌^◌, MatchOption, IfOk};
ghost use Rattle.go_tree.specs.FileView.{file_of};
ghost use Rattle.run_rules.specs.ImportRules.Laid.{CommentsAscend};
ghost use Rattle.scope_tables.specs.Table.{IsTableOf, table_of};
ghost use Rattle.constant_forms.specs.Told.{AreInPackages};
ghost use Rattle.repeated_parts.specs.UseSearch.Answers.{CantBeTold, IsAnswer, IsReduction, IsTold};

use crate::use_search::uses_of_marks::MarkedUse;
use crate::use_search::views::{FileView, ProgramView};
use constant_forms::{ConstantUse, ReducedConstant, reduced_constant};
use go_tree::NoMemory;
use std::alloc::Global;

/// The number in 32 bits, where it fits.
fn small(number: usize) -> Option<u32>
    ensures { MatchOption result (2 ^ 32 ≤ number) (λ k. k ≡ number) }
{
    if number <= u32::MAX as usize {
        Some(number as u32)
    } else {
        None
    }
}

/// What constant_forms is told of the use; nothing where the constant is declared as neither a name nor a name of another
/// package, or where a package has a number that doesn't fit in 32 bits.
fn told_use<'a>(
    program: &ProgramView<'a>,
    file: &FileView<'a>,
    use_: &MarkedUse,
) -> Option<ConstantUse<'a>>
    ensures { MatchOption result (CantBeTold program.now file.now use_.now) (IsTold program.now file.now use_.now) }
{
    let Some(value) = program.values.find(use_.mark) else {
        return None;
    };
    let Some(home) = small(use_.mark.package) else {
        return None;
    };
    let Some(there) = small(file.home) else {
        return None;
    };
    Some(ConstantUse {
        value,
        home,
        packages: program.packages,
        there,
        file: file.tree,
        names: file.names,
        scopes: file.scopes,
        at: use_.span.start,
        span: use_.span,
        comments: file.comments,
        repeated: use_.repeated,
    })
}

/// What the use becomes, where its package and the one that it needs are among the packages.
fn reduced(alloc: Global, told: &ConstantUse) -> Result<Option<ReducedConstant>, NoMemory>
    requires table { IsTableOf told.now.names.now (file_of told.now.file.now) (table_of told.now.scopes.now) }
    requires ascend { CommentsAscend 0 told.now.comments.now }
    ensures { IfOk result (λ r. MatchOption r (AreInPackages told.now → ⊥) (IsReduction told.now)) }
{
    if !told.is_in_packages() {
        return Ok(None);
    }
    let r = reduced_constant(alloc, told)?;
    Ok(Some(r))
}

/// What the use becomes, or what keeps it. Nothing, where constant_forms isn't told of it or its packages aren't there,
/// which comes in no program as it stands. The only error is `NoMemory`.
pub(crate) fn answer(
    alloc: Global,
    program: &ProgramView,
    file: &FileView,
    use_: &MarkedUse,
) -> Result<Option<ReducedConstant>, NoMemory>
    requires table { IsTableOf file.now.names.now (file_of file.now.tree.now) (table_of file.now.scopes.now) }
    requires ascend { CommentsAscend 0 file.now.comments.now }
    ensures { IfOk result (IsAnswer program.now file.now use_.now) }
{
    let Some(told) = told_use(program, file, use_) else {
        return Ok(None);
    };
    let r = reduced(alloc, &told)?;
    Ok(r)
}
