//! The laws of files with the form of a use in its place.

ghost use Rattle.constant_modules.specs.TypedForms.Laws as law;

use crate::typed_uses::first_uses_are_typed_before;
use printed_constants::first_uses_have_next;

/// With the form of a step over a constant in its place, in a well-typed program, each declaration of its file is as
/// import_uses asks: literals of functions have types, no `for` declares a variable behind its test, keys of literals of
/// structs are names, and names of imports stand before dots alone (Go specification, Function literals; For statements;
/// Composite literals; Qualified identifiers).
pub fn steps_stand_between()
    ensures { law.StepsStandBetween }
{}

/// So the file of the first use of such a program that becomes a form is typed as standing_uses asks (`AreTyped`),
/// whatever the program declares, if its step takes its name (Go specification, Declarations and scope).
pub fn first_uses_are_typed()
    ensures { law.FirstUsesAreTyped }
{
    first_uses_have_next();
    first_uses_are_typed_before();
}
