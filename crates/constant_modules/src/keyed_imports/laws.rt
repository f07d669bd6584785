//! The laws of packages of the same declarations under other imports, with keys told apart from names.

ghost use Rattle.constant_modules.specs.KeyedImports.Laws as law;
ghost use Rattle.constant_modules.specs.KeyedImports.StepLaws as of_steps;

use printed_constants::typed_parts::marked_runs::constants_settle;

/// Packages of the same declarations, in whose files each name that is used is that of the same package or of none, and
/// each key that is declared elsewhere, declare the same (`declare`). A key that is neither declared in its package nor
/// predeclared as a value may be the name of an import in one and of none in the other: it is no value in either. So
/// where the headers and bodies of the first are typed, those of the second are (`typed`), the packages are the same in
/// the kernel (`code`), and each file uses the same names (`uses`) (Go specification, Import declarations; Composite
/// literals; Operands).
pub fn keyed_imports_mean_the_same()
    ensures declare { law.KeyedDeclareTheSame }
    ensures typed { law.KeyedAreTypedAlike }
    ensures code { law.KeyedKeepTheirCode }
    ensures uses { law.KeyedUseTheSame }
{}

/// A step that puts a constant's name, in a ready, well-typed program, keeps what names and keys mean in the file as it
/// is read again, where no import that goes has the name of a key that is predeclared as a value: an import that goes
/// is used no more, and a name that is used would use it (Go specification, Import declarations; Composite literals;
/// Predeclared identifiers).
pub fn steps_keep_uses()
    ensures { of_steps.StepsKeepUses }
{}

/// A step over a marked constant that keeps what names and keys mean writes its file, and no imports lead to a cycle
/// (`writes`); after it each mark is that of a constant that is declared as a name again (`stay`) (Go specification,
/// Constant declarations; Import declarations).
pub fn keyed_marks_stay_named()
    ensures writes { of_steps.KeyedStepsWrite }
    ensures stay { of_steps.KeyedStepsKeepNamed }
{
    constants_settle();
}
