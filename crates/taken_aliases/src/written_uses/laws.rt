//! Laws of uses of aliases as they are found.

ghost use Rattle.taken_aliases.specs.WrittenUses.Laws.{AliasUsesAreNames, WrittenUsesAreListed, WrittenUsesAreOver};

/// A use that is a written type, but not that of a receiver, nor by itself that of a composite literal,
/// is among the names of types that its declaration writes (`types`); a use of an alias that is an
/// expression is a name (`names`).
pub fn uses_are_written()
    ensures types { WrittenUsesAreListed }
    ensures names { AliasUsesAreNames }
{}

/// So a step over such a use of an alias is one as mixed_runs asks: its form is laid out in the place of
/// a node, with nothing told.
pub fn written_uses_are_over()
    ensures { WrittenUsesAreOver }
{}
