//! The laws of names that are told apart from keys.

ghost use Rattle.constant_modules.specs.NamesAndKeys.Laws as law;

/// Where the names that a part uses mean the same in another environment, and its keys the same or no value, an
/// expression is the same operand there (`operand`, `operands`), and statements are as well typed (`bodies`) and use the
/// same names (`uses`) (Go specification, Composite literals; Declarations and scope).
pub fn names_are_typed_alike()
    ensures operand { law.OperandsAreAlike }
    ensures operands { law.ListsAreAlike }
    ensures bodies { law.BodiesAreAlike }
    ensures uses { law.UsesAreAlike }
{}

/// And statements are the same term (Go specification, Composite literals; Declarations and scope).
pub fn names_are_translated_alike()
    ensures { law.TermsAreAlike }
{}

/// So a function whose file has other imports, under which the names of its receiver, its parameters and its results mean
/// the same, those that its body uses too, and keys the same or no value, is as well typed (`typed`), uses the same
/// names (`uses`) and has the same code (`code`). For the names of its body those count that it doesn't declare around it,
/// at the top of the file (`top`) (Go specification, Composite literals; Import declarations).
pub fn functions_keep_keys()
    ensures typed { law.FunctionsStayTyped }
    ensures uses { law.FunctionsUseTheSame }
    ensures code { law.FunctionsKeepTheirCode }
    ensures top { law.NamesAtTheTop }
{}

/// In a well-typed program each import of a file but `_` is used there as the run rules have it, whatever keys of
/// composite literals have its name (`stand`), and so is each that stays, with the form of a step in its place (`stay`)
/// (Go specification, Import declarations; Composite literals).
pub fn typed_imports_stand()
    ensures stand { law.TypedImportsStand }
    ensures stay { law.ImportsThatStayStand }
{}
