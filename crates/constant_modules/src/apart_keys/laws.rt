//! The laws of imports and of keys of composite literals.

ghost use Rattle.constant_modules.specs.ApartKeys.Laws as law;

use printed_constants::typed_parts::marked_runs::added_imports_may_be_declared;

/// No import of a file has `true`, `false`, `nil` or `iota` for its name where that is a key in its declarations, where
/// each file is found to be so (`found`), and there alone (`only`): nothing of types is read, and nothing of spans, so
/// it is of a module as read what it is of its files (`read`) (Go specification, Composite literals; Import
/// declarations; Predeclared identifiers).
pub fn keys_apart_are_found()
    ensures found { law.FoundKeysAreApart }
    ensures only { law.ApartKeysAreFound }
    ensures read { law.FilesKeepKeysApart }
{}

/// In a ready, well-typed program a step over a marked constant puts its name, whatever imports go (`puts`). So no
/// import that goes has the name of a key that is predeclared as a value, where keys are apart from imports before it
/// (`removes`) (Go specification, Constant declarations; Import declarations; Composite literals).
pub fn steps_put_names()
    ensures puts { law.StepsPutNames }
    ensures removes { law.StepsRemoveNoValueKeys }
{
    added_imports_may_be_declared();
}

/// A declaration with a name in the place of a use has the keys that it had, and that name (`adds`). So keys are apart
/// from imports after a step that puts a constant's name and writes its file, if they were before (`keeps`) (Go
/// specification, Composite literals; Import declarations).
pub fn steps_keep_keys_apart()
    ensures adds { law.FormsAddOneKey }
    ensures keeps { law.StepsKeepKeysApart }
{}
