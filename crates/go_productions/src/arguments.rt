//! How the arguments of a call end (Go specification, Calls, Passing arguments to ... parameters).

ghost use Rattle.std.specs.Prelude.{◌≡◌, ◌<◌, IfSome, length};
ghost use Rattle.std.specs.Option.{option_map};
ghost use Rattle.go_productions.specs.Cursors.{ahead};
ghost use Rattle.go_productions.specs.Parts.{args_closed, args_end, args_end_of};

use crate::cursor::Cursor;
use go_tree::Rest;
use go_tree::go_words::Terminal;

/// The end of the arguments of a call.
#[derive(Clone, Copy)]
pub struct ArgsEnd<'a> {
    /// `Whole` where three dots stand after the last argument, `Plain` where none do.
    pub rest: Rest,
    /// The place after the closing parenthesis.
    pub after: Cursor<'a>,
}

/// The end of arguments, after the last of them, or nothing where they don't end here.
pub fn args_end(tokens: Cursor) -> Option<ArgsEnd>
    ensures is { args_end (ahead tokens.entry) ≡ option_map args_end_of result }
    ensures shorter { IfSome result (λ r. length (ahead r.after) < length (ahead tokens.entry)) }
{
    match tokens.first() {
        Terminal::EndParen => Some(ArgsEnd {
            rest: Rest::Plain,
            after: tokens.rest(),
        }),
        Terminal::Ellipsis => {
            let Some(after) = args_closed(tokens.rest()) else {
                return None;
            };
            Some(ArgsEnd {
                rest: Rest::Whole,
                after,
            })
        }
        _ => None,
    }
}

/// The tokens after the parenthesis that ends arguments, before which a comma may stand.
fn args_closed(tokens: Cursor) -> Option<Cursor>
    ensures is { args_closed (ahead tokens.entry) ≡ option_map ahead result }
    ensures shorter { IfSome result (λ r. length (ahead r) < length (ahead tokens.entry)) }
{
    let left = tokens.rest();
    match tokens.first() {
        Terminal::EndParen => Some(left),
        Terminal::Comma => {
            let Terminal::EndParen = left.first() else {
                return None;
            };
            Some(left.rest())
        }
        _ => None,
    }
}
