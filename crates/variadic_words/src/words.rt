//! The word `...`.

ghost use Rattle.std.specs.Prelude.{◌≡◌};
ghost use Rattle.std.specs.List.{list_any};
ghost use Rattle.variadic_words.specs.Dots.{is_dots as spec_is_dots};

use go_tree::{Token, TokenKind};

/// Whether a token is `...`.
fn is_dots(token: &Token) -> bool
    ensures { result ≡ spec_is_dots token.now }
{
    token.kind == TokenKind::Operator && token.spelling.items() == b"...".as_slice()
}

/// Whether a file with these tokens has variadic syntax: `...` stands before the type of a last parameter and behind the
/// last argument of a call, and nowhere else (Go specification, Function types; Passing arguments to ... parameters).
pub fn has_dots(tokens: &[Token]) -> bool
    ensures { result ≡ list_any spec_is_dots tokens.now }
{
    for token in tokens {
        if is_dots(token) {
            return true;
        }
    }
    false
}
