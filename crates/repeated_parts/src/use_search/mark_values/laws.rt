//! The law of what marked constants are declared as.

ghost use Rattle.repeated_parts.specs.UseSearch.MarkValues.Laws.{TablesTellValues};

/// Where a table was made of packages as they stand, it tells of each marked constant exactly what it is declared as,
/// or that it is neither a name nor a name of another package (Go specification, Constant declarations; Qualified
/// identifiers).
pub fn tables_tell_values()
    ensures { TablesTellValues }
{}
