//! The law of names of declarations.

ghost use Rattle.name_places.specs.Laws.{NamesStandApart};

/// Names of a declaration that stand at one place are written alike, as those in a type that parameters share, and none
/// stands where a key that names a field does (Go specification, Source file organization; Composite literals).
pub fn names_stand_apart()
    ensures { NamesStandApart }
{}
