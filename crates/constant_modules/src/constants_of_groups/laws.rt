//! The laws of constants that share their spec with others.

ghost use Rattle.constant_modules.specs.ConstantsOfGroups.Laws as law;

/// A name that means by its numbers what a mark can hold for as for a constant is declared by the first header of the
/// package with the name: among the names of that header's spec the first that is it has the constant's expression, and
/// the type that is written for the constant (`first`). Where each name of the spec has a value, the header of the
/// constant alone is the first among the headers of single names (`single`) (Go specification, Constant declarations;
/// Declarations and scope; Package block).
pub fn groups_declare_their_constants()
    ensures first { law.GroupsDeclareFirst }
    ensures single { law.SinglesComeFirst }
{}

/// A step, whatever it puts and whatever the declarations are, keeps the names of a package, each under its numbers
/// (`block`), and in the order in which they are declared (`members`) (Go specification, Package block).
pub fn steps_keep_names()
    ensures block { law.StepsKeepBlocks }
    ensures members { law.StepsKeepMembers }
{}

/// In a program of which the header of a constant is typed, which is declared as a name, perhaps among others of its
/// spec, each name of the spec has a value (`valued`), and the constant means what that name means, a constant that is
/// known, where whole headers are refused that can't be declared (`known`) (Go specification, Constant declarations;
/// Declarations and scope).
pub fn typed_constants_are_known()
    ensures valued { law.TypedNamesHaveValues }
    ensures known { law.TypedConstantsMeanTheirTexts }
{}

/// A use of a constant that is known, and the name that is put for it, mean that constant wherever more is known of what
/// names mean (Go specification, Declarations and scope).
pub fn known_uses_stay()
    ensures { law.KnownUsesStay }
{}
