//! What tokens know of literals.

ghost use Rattle.go_tree.specs.GoLiterals.Literals.{TokensAreLiterals, TokensAreStrings};

/// The integer, rune and string tokens of a text have the forms that `string_value`, `rune_value`
/// and whoever reads numbers ask for.
pub fn tokens_are_literals()
    ensures literals { TokensAreLiterals }
    ensures strings { TokensAreStrings }
{}
