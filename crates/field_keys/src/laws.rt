//! The laws of names that parts look up.

ghost use Rattle.field_keys.specs.Laws as law;

/// Where the names that a part looks up mean the same in another environment, whatever its keys that name fields mean
/// there, an expression is the same operand (`operand`, `operands`), and statements are as well typed (`bodies`) and use
/// the same names (`uses`) (Go specification, Composite literals; Declarations and scope).
pub fn looked_up_names_are_typed_alike()
    ensures operand { law.OperandsAreAlike }
    ensures operands { law.ListsAreAlike }
    ensures bodies { law.BodiesAreAlike }
    ensures uses { law.UsesAreAlike }
{}

/// And statements are the same term (Go specification, Composite literals; Declarations and scope).
pub fn looked_up_names_are_translated_alike()
    ensures { law.TermsAreAlike }
{}

/// So a spec of a package declares the same constants (`constants`) or variables (`variables`), also while what names
/// mean is found in rounds, where types mean what they mean at last or nothing yet (Go specification, Composite
/// literals; Package initialization).
pub fn specs_declare_the_same()
    ensures constants { law.ConstantsStay }
    ensures variables { law.VariablesStay }
{}
