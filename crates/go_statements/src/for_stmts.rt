//! `for` statements (Go specification, For statements).

ghost use Rattle.std.specs.Prelude.{◌≡◌, ◌≢◌, ◌≤◌, length, true};
ghost use Rattle.go_tree.specs.View.{boxed_expr_option_of, boxed_stmt_option_of, range_left_of, stmt_of};
ghost use Rattle.go_productions.specs.Cursors.{ahead};
ghost use Rattle.go_read.specs.SpellsSpans.{span_to};
ghost use Rattle.go_read.specs.Goals.{read_stmt};
ghost use Rattle.go_read.specs.Reading.{at};
ghost use Rattle.go_expressions.specs.Bodies.{Ready};
ghost use Rattle.go_productions.specs.Answers.{Gives, Shorter};
ghost use Rattle.go_statements.specs.StmtParts.{defines_here, for_body_at, for_clause_at, for_plain_at, for_post_at};
ghost use Rattle.go_statements.specs.StmtParts.{for_test_at, range_at, range_here};
ghost use Rattle.go_productions.specs.Terminals.{first_of};

use crate::parts::{assigned, evaluated, unboxed};
use crate::simple_stmts::{defines, simple_after, simple_stmt};
use go_expressions::{Place, Taken, block, expr_list, expression};
use go_productions::{Cursor, Reading, names};
use go_tree::go_words::Terminal;
use go_tree::{Expr, ExprList, RangeLeft, Stmt, define_stmt, range_stmt};

/// A `for` statement, which begins with its keyword.
#[tactic(auto, using(crate::proofs::ForArms::for_endless, crate::proofs::ForArms::for_no_first, crate::proofs::ForArms::for_range, crate::proofs::ForArms::for_clause))]
pub(crate) fn for_stmt<'a, F: Fn(Cursor) -> Taken>(place: Place<'a, '_, F>) -> Reading<'a, Stmt>
    requires ready { Ready F.Fn place }
    requires begins { first_of (ahead place.at) ≡ Terminal.For }
    ensures gives { Gives stmt_of result (at span_to read_stmt (ahead place.entry.at)) }
    ensures shorter { Shorter result place.entry.at }
{
    let left = place.at.rest();
    match left.first() {
        Terminal::Brace => for_body(place.at, None, None, None, Place { at: left, ..place }),
        Terminal::Semicolon => for_test(
            place.at,
            None,
            Place {
                at: left.rest(),
                ..place
            },
        ),
        Terminal::Range => range_body(
            place.at,
            RangeLeft::Nothing,
            Place {
                at: left.rest(),
                ..place
            },
        ),
        _ => for_clause(place.at, Place { at: left, ..place }),
    }
}

/// A clause that begins with a statement or with what is assigned or declared before `range`.
#[tactic(auto, using(crate::proofs::ForArms::clause_exprs_none, crate::proofs::ForArms::clause_assigns, crate::proofs::ForArms::clause_simple_none, crate::proofs::ForArms::clause_simple))]
fn for_clause<'a, F: Fn(Cursor) -> Taken>(
    whole: Cursor,
    place: Place<'a, '_, F>,
) -> Reading<'a, Stmt>
    requires ready { Ready F.Fn place }
    requires begins { first_of (ahead place.at) ≢ Terminal.Range }
    ensures gives { Gives stmt_of result
        (for_clause_at (ahead whole.entry) (ahead place.entry.at)) }
    ensures shorter { Shorter result place.entry.at }
{
    if defines(place.at) {
        return for_defined(whole, place);
    }
    let Some((exprs, left)) = expr_list(Place {
        header: true,
        ..place
    })?
    else {
        return Ok(None);
    };
    if ranges(left) {
        return range_body(
            whole,
            assigned(exprs),
            Place {
                at: left.rest().rest(),
                ..place
            },
        );
    }
    let Some((first_stmt, left)) = simple_after(
        place.at,
        exprs,
        Place {
            at: left,
            header: true,
            ..place
        },
    )?
    else {
        return Ok(None);
    };
    for_plain(whole, first_stmt, Place { at: left, ..place })
}

/// A clause that begins with names and `:=`.
#[tactic(auto, using(crate::proofs::ForArms::clause_lost, crate::proofs::ForArms::clause_range, crate::proofs::ForArms::clause_valueless, crate::proofs::ForArms::clause_defines))]
fn for_defined<'a, F: Fn(Cursor) -> Taken>(
    whole: Cursor,
    place: Place<'a, '_, F>,
) -> Reading<'a, Stmt>
    requires ready { Ready F.Fn place }
    requires begins { first_of (ahead place.at) ≢ Terminal.Range }
    requires defines { defines_here (ahead place.at) ≡ true }
    ensures gives { Gives stmt_of result
        (for_clause_at (ahead whole.entry) (ahead place.entry.at)) }
    ensures shorter { Shorter result place.entry.at }
{
    let Some((names, left)) = names(place.at)? else {
        return Ok(None);
    };
    let left = left.rest();
    if let Terminal::Range = left.first() {
        return range_body(
            whole,
            RangeLeft::Defines(names),
            Place {
                at: left.rest(),
                ..place
            },
        );
    }
    let Some((right, left)) = expr_list(Place {
        at: left,
        header: true,
        ..place
    })?
    else {
        return Ok(None);
    };
    let span = place.at.span_to(left);
    let first_stmt = define_stmt(span, names, ExprList::of(right));
    for_plain(whole, first_stmt, Place { at: left, ..place })
}

/// Whether `=` and `range` stand first.
fn ranges(tokens: Cursor) -> bool
    ensures { range_here (ahead tokens.entry) ≡ result }
{
    let Terminal::Assign(None) = tokens.first() else {
        return false;
    };
    match tokens.rest().first() {
        Terminal::Range => true,
        _ => false,
    }
}

/// What follows the first statement of a header, or the test that it is.
#[tactic(auto, using(crate::proofs::ForArms::plain_first, crate::proofs::ForArms::plain_eval, crate::proofs::ForArms::plain_stop))]
fn for_plain<'a, F: Fn(Cursor) -> Taken>(
    whole: Cursor,
    first_stmt: Stmt,
    place: Place<'a, '_, F>,
) -> Reading<'a, Stmt>
    requires ready { Ready F.Fn place }
    ensures gives { Gives stmt_of result
        (for_plain_at (ahead whole.entry) (stmt_of first_stmt) (ahead place.entry.at)) }
    ensures shorter { Shorter result place.entry.at }
{
    if let Terminal::Semicolon = place.at.first() {
        let first_stmt = Some(Box::new(place.at.room.alloc, first_stmt)?);
        return for_test(
            whole,
            first_stmt,
            Place {
                at: place.at.rest(),
                ..place
            },
        );
    }
    let Some(test) = evaluated(first_stmt) else {
        return Ok(None);
    };
    let test = Box::new(place.at.room.alloc, test)?;
    for_body(whole, None, Some(test), None, place)
}

/// The test of a header and what follows it.
#[tactic(auto, using(crate::proofs::ForArms::test_absent, crate::proofs::ForArms::test_none, crate::proofs::ForArms::test_stop, crate::proofs::ForArms::test_some))]
fn for_test<'a, F: Fn(Cursor) -> Taken>(
    whole: Cursor,
    first_stmt: Option<Box<Stmt>>,
    place: Place<'a, '_, F>,
) -> Reading<'a, Stmt>
    requires ready { Ready F.Fn place }
    ensures gives { Gives stmt_of result
        (for_test_at (ahead whole.entry) (boxed_stmt_option_of first_stmt) (ahead place.entry.at)) }
    ensures shorter { Shorter result place.entry.at }
{
    if let Terminal::Semicolon = place.at.first() {
        return for_post(
            whole,
            first_stmt,
            None,
            Place {
                at: place.at.rest(),
                ..place
            },
        );
    }
    let Some((test, left)) = expression(Place {
        header: true,
        ..place
    })?
    else {
        return Ok(None);
    };
    let test = Box::new(place.at.room.alloc, test)?;
    let Terminal::Semicolon = left.first() else {
        return Ok(None);
    };
    for_post(
        whole,
        first_stmt,
        Some(test),
        Place {
            at: left.rest(),
            ..place
        },
    )
}

/// The last statement of a header, and the body.
#[tactic(auto, using(crate::proofs::ForArms::post_absent, crate::proofs::ForArms::post_none, crate::proofs::ForArms::post_some))]
fn for_post<'a, F: Fn(Cursor) -> Taken>(
    whole: Cursor,
    first_stmt: Option<Box<Stmt>>,
    test: Option<Box<Expr>>,
    place: Place<'a, '_, F>,
) -> Reading<'a, Stmt>
    requires ready { Ready F.Fn place }
    ensures gives { Gives stmt_of result
        (for_post_at (ahead whole.entry) (boxed_stmt_option_of first_stmt) (boxed_expr_option_of test)
        (ahead place.entry.at)) }
    ensures shorter { Shorter result place.entry.at }
{
    if let Terminal::Brace = place.at.first() {
        return for_body(whole, first_stmt, test, None, place);
    }
    let Some((post, left)) = simple_stmt(Place {
        header: true,
        ..place
    })?
    else {
        return Ok(None);
    };
    let post = Some(Box::new(place.at.room.alloc, post)?);
    for_body(whole, first_stmt, test, post, Place { at: left, ..place })
}

/// The body behind the header.
#[tactic(auto, using(crate::proofs::ForArms::body_none, crate::proofs::ForArms::body_some))]
fn for_body<'a, F: Fn(Cursor) -> Taken>(
    whole: Cursor,
    first_stmt: Option<Box<Stmt>>,
    test: Option<Box<Expr>>,
    post: Option<Box<Stmt>>,
    place: Place<'a, '_, F>,
) -> Reading<'a, Stmt>
    requires ready { Ready F.Fn place }
    ensures gives { Gives stmt_of result
        (for_body_at (ahead whole.entry) (boxed_stmt_option_of first_stmt) (boxed_expr_option_of test)
        (boxed_stmt_option_of post) (ahead place.entry.at)) }
    ensures shorter { Shorter result place.entry.at }
{
    let Some((body, left)) = block(place)? else {
        return Ok(None);
    };
    let span = whole.span_to(left);
    Ok(Some((
        go_tree::for_stmt(span, first_stmt, unboxed(test), post, body),
        left,
    )))
}

/// What `range` goes over, and the body.
#[tactic(auto, using(crate::proofs::ForArms::range_none, crate::proofs::ForArms::range_open, crate::proofs::ForArms::range_some))]
fn range_body<'a, F: Fn(Cursor) -> Taken>(
    whole: Cursor,
    left_side: RangeLeft,
    place: Place<'a, '_, F>,
) -> Reading<'a, Stmt>
    requires ready { Ready F.Fn place }
    ensures gives { Gives stmt_of result
        (range_at (ahead whole.entry) (range_left_of left_side) (ahead place.entry.at)) }
    ensures shorter { Shorter result place.entry.at }
{
    let left_side = Box::new(place.at.room.alloc, left_side)?;
    let Some((over, left)) = expression(Place {
        header: true,
        ..place
    })?
    else {
        return Ok(None);
    };
    let over = Box::new(place.at.room.alloc, over)?;
    let Some((body, left)) = block(Place { at: left, ..place })? else {
        return Ok(None);
    };
    let span = whole.span_to(left);
    Ok(Some((
        range_stmt(
            span,
            Box::into_inner(left_side),
            Box::into_inner(over),
            body,
        ),
        left,
    )))
}
