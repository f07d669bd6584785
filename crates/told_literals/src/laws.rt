//! The law of files and right tables of declared types.

ghost use Rattle.told_literals.specs.Laws as law;

/// In a well-typed program as it stands, a table that has the types of its packages tells of each declaration of a file
/// which keys of composite literals that are names name fields, as a search for uses asks (Go specification, Composite
/// literals). Asked of the file: that it reads from its text, and that its names, the table of its scopes, and its
/// declarations are as searches ask.
pub fn right_tables_tell_fields()
    ensures { law.RightTablesTellFields }
{}
