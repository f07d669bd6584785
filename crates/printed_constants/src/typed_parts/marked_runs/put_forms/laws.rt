//! Laws of forms that a run puts next.

ghost use Rattle.printed_constants.specs.TypedParts.MarkedRuns.PutForms.Laws.{ConstantFormsArePut, ConstantNamesAreInProgram};
ghost use Rattle.printed_constants.specs.TypedParts.MarkedRuns.PutForms.Laws.{ConstantUsesHaveBytes};
ghost use Rattle.printed_constants.specs.TypedParts.MarkedRuns.PutForms.Laws.{ConstantsComeNext, MadeConstantsAreNext};
ghost use Rattle.printed_constants.specs.TypedParts.MarkedRuns.PutForms.Laws.{MadeConstantsStayReady};
ghost use Rattle.printed_constants.specs.TypedParts.MarkedRuns.PutForms.Laws.{ReachedProgramsAreReady, ValuesAreNames};

use crate::typed_parts::well_typed_files_are_scoped;

/// In a program that is ready, the form of the first use of a constant that is declared as a name is laid out in the
/// place of a node of its file; that node replaced is the form in the use's place. What it
/// replaces has a byte at least. Its names for packages are those of
/// packages of the program, and the imports that it adds can be written.
pub fn forms_of_constants_are_put()
    ensures put { ConstantFormsArePut }
    ensures some { ConstantUsesHaveBytes }
    ensures named { ConstantNamesAreInProgram }
{
    well_typed_files_are_scoped();
}

/// So such a use is one that a run takes next, and whatever the new text of its file is read as makes the next program,
/// which is ready too where it is well typed. Programs that are reached are ready, where they are well typed and their
/// packages linked.
pub fn constants_come_next()
    ensures next { ConstantsComeNext }
    ensures made { MadeConstantsAreNext }
    ensures stay { MadeConstantsStayReady }
    ensures ready { ReachedProgramsAreReady }
{
    well_typed_files_are_scoped();
}

/// What constant_forms is told that a constant is declared as is a name, as these laws ask, where a package that it
/// names is one of the program.
pub fn values_are_names()
    ensures { ValuesAreNames }
{}
