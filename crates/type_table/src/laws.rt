//! Laws of the table of types.

ghost use Rattle.type_table.specs.TableLaws.{RowsStand, TypesOfParts, IdenticalByNumber, TypesAreKept};

/// A row of the table stands for the type that is made of those of its parts; two are identical
/// exactly where their numbers are equal; rows that are added change no type (Go specification, Type
/// identity).
#[tactic(auto, using(crate::proofs::TypesAtLaws::table_laws))]
pub fn rows_stand_for_types()
    ensures stand { RowsStand }
    ensures parts { TypesOfParts }
    ensures identical { IdenticalByNumber }
    ensures kept { TypesAreKept }
{}
