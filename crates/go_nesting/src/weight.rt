//! The first token that nests too deeply.

ghost use Rattle.std.specs.Prelude.{◌≤◌};
ghost use Rattle.go_nesting.specs.Over.{IsFirstOver};

use crate::counts::{Counts, MAX_LIMIT, nesting_of};
use go_scan::Tokens;

/// The offset of the first token whose nesting weight passes the limit, or nothing where there is
/// none. The weight of a token bounds how deep the trees are that may have been begun when it is
/// read: each open bracket counts, and each token since the last comma or semicolon within it.
pub fn weight_over(tokens: &Tokens, limit: u32) -> Option<u32>
    requires { limit ≤ MAX_LIMIT }
    ensures { IsFirstOver limit tokens.now.items result }
{
    let mut counts = Counts::new();
    let terminals = tokens.terminals();
    for (i, token) in tokens.items().iter().enumerate() {
        let nesting = nesting_of(terminals[i]);
        if counts.weight_after(nesting) > limit {
            return Some(token.span.start);
        }
        counts.take(nesting);
    }
    None
}
