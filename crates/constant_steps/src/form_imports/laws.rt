//! Laws of the names that forms write.

ghost use Rattle.constant_steps.specs.FormImports.CallLaws.{BlockFormsAreUsed, ExpressionFormsAreUsed};
ghost use Rattle.constant_steps.specs.FormImports.CallLaws.{LiteralFormsAreUsed};
ghost use Rattle.constant_steps.specs.FormImports.CallLaws.{NamesOfBlocksMean, NamesOfExpressionsMean};
ghost use Rattle.constant_steps.specs.FormImports.CallLaws.{NamesOfLiteralsMean};
ghost use Rattle.constant_steps.specs.FormImports.Laws.{AliasFormsAreUsed, ConstantFormsAreUsed};
ghost use Rattle.constant_steps.specs.FormImports.Laws.{NamesOfAliasesMean, NamesOfConstantsMean};
ghost use Rattle.constant_steps.specs.FormImports.OwnNames.{PackagesInUseAreNamed, ReadPackagesAreNamed, RunsKeepNames};

/// The file of a use uses the imports that its form's names mean, once the form is in its place. So no import that a
/// name means is removed, and the names that the form has for packages mean these at its place once the imports are
/// settled: those of constants, those of aliases, and those of the literals, the expressions, the blocks and the tails
/// that calls become.
pub fn forms_use_their_imports()
    ensures constants { ConstantFormsAreUsed }
    ensures aliases { AliasFormsAreUsed }
    ensures literals { LiteralFormsAreUsed }
    ensures expressions { ExpressionFormsAreUsed }
    ensures blocks { BlockFormsAreUsed }
    ensures mean_of_constants { NamesOfConstantsMean }
    ensures mean_of_aliases { NamesOfAliasesMean }
    ensures mean_of_literals { NamesOfLiteralsMean }
    ensures mean_of_expressions { NamesOfExpressionsMean }
    ensures mean_of_blocks { NamesOfBlocksMean }
{}

/// Each package of a module that reads has a name of its own that may be written, and runs keep that. So the packages
/// for which the names of a form stand have such names, where they are packages of the program.
pub fn packages_have_own_names()
    ensures read { ReadPackagesAreNamed }
    ensures kept { RunsKeepNames }
    ensures named { PackagesInUseAreNamed }
{}
