//! What the functions hand on, and statements in braces by what reads statements.

ghost use Rattle.std.specs.Prelude.{◌≡◌, ◌<◌, ⊤, length};
ghost use Rattle.go_tree.specs.View.{block_of, stmts_of};
ghost use Rattle.go_productions.specs.Cursors.{ahead};
ghost use Rattle.go_read.specs.SpellsSpans.{span_to};
ghost use Rattle.go_read.specs.Goals.{read_block, read_stmts};
ghost use Rattle.go_read.specs.Reading.{at};
ghost use Rattle.go_productions.specs.Answers.{Gives, Shorter, Within};
ghost use Rattle.go_expressions.specs.Bodies.{Ready};

use go_productions::{Cursor, Reading};
use go_tree::go_words::Terminal;
use go_tree::{Block, NoMemory, StmtList};
use std::alloc::AllocError;

/// Statements and how many tokens they take, or nothing where the tokens don't begin with some.
pub type Taken = Result<Option<(StmtList, usize)>, NoMemory>;

/// What the functions that read expressions and statements hand on.
pub struct Place<'a, 'r, F> {
    pub at: Cursor<'a>,
    /// Whether it lies in the header of an `if`, `for` or `switch`, outside of brackets.
    pub header: bool,
    /// Reads statements up to a closing brace or the next clause of a `switch`.
    pub read: &'r F,
    /// It is for fewer tokens than these.
    pub limit: usize,
}

impl<'a, 'r, F> Clone for Place<'a, 'r, F> {
    ghost is_clone = { λ x y. y ≡ x };

    ghost is_infallible = { λ _. ⊤ };

    fn clone(&self) -> Result<Place<'a, 'r, F>, AllocError> {
        Ok(*self)
    }
}

impl<'a, 'r, F> Copy for Place<'a, 'r, F> {}

/// Statements up to a closing brace or the next clause of a `switch` (Go specification, Blocks).
#[tactic(auto, using(crate::proofs::BodyArms::stmts_taken))]
pub fn statements<'a, F: Fn(Cursor) -> Taken>(place: Place<'a, '_, F>) -> Reading<'a, StmtList>
    requires ready { Ready F.Fn place }
    requires below { length (ahead place.at) < place.limit }
    ensures gives { Gives stmts_of result (at span_to read_stmts (ahead place.entry.at)) }
    ensures within { Within result place.entry.at }
{
    let Some((stmts, taken)) = (place.read)(place.at)? else {
        return Ok(None);
    };
    Ok(Some((stmts, place.at.skip(taken))))
}

/// Statements in braces (Go specification, Blocks).
#[tactic(auto, using(crate::proofs::BodyArms::block_open, crate::proofs::BodyArms::block_none, crate::proofs::BodyArms::block_end, crate::proofs::BodyArms::block_some))]
pub fn block<'a, F: Fn(Cursor) -> Taken>(place: Place<'a, '_, F>) -> Reading<'a, Block>
    requires ready { Ready F.Fn place }
    ensures gives { Gives block_of result (at span_to read_block (ahead place.entry.at)) }
    ensures shorter { Shorter result place.entry.at }
{
    let Terminal::Brace = place.at.first() else {
        return Ok(None);
    };
    let inner = Place {
        at: place.at.rest(),
        ..place
    };
    let Some((stmts, left)) = statements(inner)? else {
        return Ok(None);
    };
    let Terminal::EndBrace = left.first() else {
        return Ok(None);
    };
    let left = left.rest();
    let span = place.at.span_to(left);
    Ok(Some((Block { span, stmts }, left)))
}
