//! Laws of typed parts.

ghost use Rattle.printed_constants.specs.TypedParts.ScopedParts.Laws.{TypedPartsAreKeyed, WellTypedFilesAreScoped};

/// The keys of composite literals among typed parts are names of fields where the literal is of a struct,
/// and else expressions that are typed (Go specification, Composite literals).
pub fn typed_parts_are_keyed()
    ensures keyed { TypedPartsAreKeyed }
{}

/// The parts of each declaration of a file that reads from its text, in a well-typed program, are as the
/// tables of scopes and the walk over possible uses ask (Go specification, Blocks; For statements).
pub fn well_typed_files_are_scoped()
    ensures scoped { WellTypedFilesAreScoped }
{}
