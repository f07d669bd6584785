//! The quotes of a literal (Go specification, Rune literals, String literals).

ghost use Rattle.std.specs.Prelude.{◌≡◌, ◌≤◌, length};
ghost use Rattle.go_tree.specs.GoWords.Texts.{between_quotes};

/// What stands between the quotes.
pub(crate) fn between_quotes(spelling: &[u8]) -> &[u8]
    requires { 2 ≤ length spelling.now }
    ensures { result.now ≡ between_quotes spelling.now }
{
    &spelling[1..spelling.len() - 1]
}
