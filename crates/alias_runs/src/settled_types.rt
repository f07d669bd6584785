//! Laws of types where the values of a program are found.

ghost use Rattle.alias_runs.specs.SettledTypes.Laws.{MeaningsAreSettled, TextsAreSettled, TypesAreSettled};

/// A name of a package block stands for the same type, or for none, where all values are found as
/// where it is known which types are refused (`names`); so a type's text names the same type at the
/// top of a file (`texts`), and means it or is refused alike (`meant`).
pub fn types_are_settled()
    ensures names { TypesAreSettled }
    ensures texts { TextsAreSettled }
    ensures meant { MeaningsAreSettled }
{}
