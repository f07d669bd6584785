//! The laws of imports that are used with the form of a step in its place.

ghost use Rattle.constant_modules.specs.KeptUses.Laws as law;

/// Each import that a step over a constant adds is used with the form in its place, where few names are avoided, since
/// its name stands in the form before a dot, and nothing around declares it (`added`). So in a well-typed program each
/// import of the file is used there, an old one or one that came, if the step doesn't remove it (`each`) (Go
/// specification, Import declarations; Qualified identifiers).
pub fn added_imports_are_used()
    ensures added { law.AddedImportsAreUsed }
    ensures each { law.ImportsInPlaceAreUsed }
{}

/// So each import but `_` of the file as it is read again after such a step is written as one that is used with the
/// form in place (`read_again`), where the texts are within the limit of a run and the step writes its file (Go
/// specification, Import declarations).
pub fn imports_read_again_are_used()
    ensures read_again { law.ImportsReadAgainAreUsed }
{}
