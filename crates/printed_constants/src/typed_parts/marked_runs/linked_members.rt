//! The laws of the imports of packages in their order.

ghost use Rattle.printed_constants.specs.TypedParts.MarkedRuns.LinkedMembers.Laws.{MembersAreLinked, ReadPackagesHaveFiles};
ghost use Rattle.printed_constants.specs.TypedParts.MarkedRuns.LinkedMembers.Laws.{StepsKeepFiles};
ghost use Rattle.printed_constants.specs.TypedParts.MarkedRuns.LinkedMembers.Laws.{UsedImportsAreRight, UsedImportsStand};

/// In packages of which each has a file, and no two one path, each import is of a package before, in their order; the
/// packages of a module that reads have files, and each step keeps that. Where imports may be declared, those that are
/// used are right; so are those after a step whose form is an expression (Go specification, Import declarations;
/// Packages).
pub fn members_are_linked()
    ensures linked { MembersAreLinked }
    ensures read { ReadPackagesHaveFiles }
    ensures stay { StepsKeepFiles }
    ensures right { UsedImportsAreRight }
    ensures stand { UsedImportsStand }
{}
