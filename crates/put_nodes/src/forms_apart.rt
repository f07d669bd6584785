//! Laws of what is written behind a token.

ghost use Rattle.put_nodes.specs.FormsApart.Laws.{FormsStandApart, IdentifiersStandApart, TypesStandApart};

/// Where no blank is needed before a form, the token that ends there and the form's first word are read as these two.
pub fn forms_stand_apart()
    ensures { FormsStandApart }
{}

/// So an identifier that needs no blank is read as itself behind the token that ends there.
pub fn identifiers_stand_apart()
    ensures { IdentifiersStandApart }
{}

/// So is the first word of a written type. Before a type that begins with `*` a blank is needed behind `/` alone, and
/// before one that begins with `[` none is (Go specification, Types; Comments).
pub fn types_stand_apart()
    ensures { TypesStandApart }
{}
