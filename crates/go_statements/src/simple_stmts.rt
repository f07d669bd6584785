//! Simple statements (Go specification, Expression statements, IncDec statements, Assignment statements, Short variable
//! declarations).

ghost use Rattle.std.specs.Prelude.{◌≡◌, map, ◌<◌, ◌≤◌, length};
ghost use Rattle.std.specs.Option.{option_map};
ghost use Rattle.go_tree.specs.Lists.{exprs_from};
ghost use Rattle.go_tree.specs.View.{expr_of, stmt_of};
ghost use Rattle.go_productions.specs.Cursors.{ahead};
ghost use Rattle.go_read.specs.SpellsSpans.{span_to};
ghost use Rattle.go_read.specs.Goals.{read_simple, read_simple_after};
ghost use Rattle.go_read.specs.Reading.{at};
ghost use Rattle.go_expressions.specs.Bodies.{Ready};
ghost use Rattle.go_productions.specs.Answers.{Gives, Shorter, Within};
ghost use Rattle.go_statements.specs.StmtParts.{define_at, defines_here, is_short, only};

use go_expressions::{Place, Taken, expr_list};
use go_productions::{Cursor, Reading, names, skip_names};
use go_tree::go_words::Terminal;
use go_tree::{Expr, ExprList, Stmt, assign_stmt, define_stmt};

/// A simple statement; in a header no composite literal begins with a name outside of brackets.
pub(crate) fn simple_stmt<'a, F: Fn(Cursor) -> Taken>(place: Place<'a, '_, F>) -> Reading<'a, Stmt>
    requires ready { Ready F.Fn place }
    ensures gives { Gives stmt_of result
        (at span_to (read_simple place.entry.header) (ahead place.entry.at)) }
    ensures shorter { Shorter result place.entry.at }
{
    if defines(place.at) {
        return define(place);
    }
    let Some((exprs, left)) = expr_list(place)? else {
        return Ok(None);
    };
    simple_after(place.at, exprs, Place { at: left, ..place })
}

/// Whether names and `:=` stand first.
pub(crate) fn defines(tokens: Cursor) -> bool
    ensures { defines_here (ahead tokens.entry) ≡ result }
{
    match skip_names(tokens) {
        None => false,
        Some(after) => is_short(after.first()),
    }
}

fn is_short(terminal: Terminal) -> bool
    ensures { is_short terminal ≡ result }
{
    match terminal {
        Terminal::Define => true,
        _ => false,
    }
}

/// Names, `:=` and values.
#[tactic(auto, using(crate::proofs::SimpleArms::define_lost, crate::proofs::SimpleArms::define_none, crate::proofs::SimpleArms::define_some))]
fn define<'a, F: Fn(Cursor) -> Taken>(place: Place<'a, '_, F>) -> Reading<'a, Stmt>
    requires ready { Ready F.Fn place }
    ensures gives { Gives stmt_of result (define_at place.entry.header (ahead place.entry.at)) }
    ensures shorter { Shorter result place.entry.at }
{
    let Some((names, left)) = names(place.at)? else {
        return Ok(None);
    };
    let Some((right, left)) = expr_list(Place {
        at: left.rest(),
        ..place
    })?
    else {
        return Ok(None);
    };
    let span = place.at.span_to(left);
    Ok(Some((define_stmt(span, names, ExprList::of(right)), left)))
}

/// What follows the expressions that a simple statement begins with; `whole` begins with the first
/// token of the statement.
#[tactic(auto, using(crate::proofs::SimpleArms::assign_none, crate::proofs::SimpleArms::assign_some, crate::proofs::SimpleArms::after_several, crate::proofs::SimpleArms::after_up, crate::proofs::SimpleArms::after_down, crate::proofs::SimpleArms::after_other))]
pub(crate) fn simple_after<'a, F: Fn(Cursor) -> Taken>(
    whole: Cursor,
    exprs: Vec<Expr>,
    place: Place<'a, '_, F>,
) -> Reading<'a, Stmt>
    requires ready { Ready F.Fn place }
    ensures gives { Gives stmt_of result
        (at span_to (read_simple_after place.entry.header (ahead whole.entry) (exprs_from (map expr_of exprs.items)))
        (ahead place.entry.at)) }
    ensures within { Within result place.entry.at }
{
    if let Terminal::Assign(op) = place.at.first() {
        let Some((right, left)) = expr_list(Place {
            at: place.at.rest(),
            ..place
        })?
        else {
            return Ok(None);
        };
        let span = whole.span_to(left);
        return Ok(Some((
            assign_stmt(span, ExprList::of(exprs), op, ExprList::of(right)),
            left,
        )));
    }
    let Some(e) = only(exprs) else {
        return Ok(None);
    };
    match place.at.first() {
        Terminal::Increment => {
            let left = place.at.rest();
            let span = whole.span_to(left);
            Ok(Some((Stmt::Step { span, e, up: true }, left)))
        }
        Terminal::Decrement => {
            let left = place.at.rest();
            let span = whole.span_to(left);
            Ok(Some((Stmt::Step { span, e, up: false }, left)))
        }
        _ => {
            let span = whole.span_to(place.at);
            Ok(Some((Stmt::Eval { span, e }, place.at)))
        }
    }
}

/// The one expression, where there is one alone.
fn only(exprs: Vec<Expr>) -> Option<Expr>
    ensures { only (exprs_from (map expr_of exprs.items)) ≡ option_map expr_of result }
{
    let mut exprs = exprs;
    let last = exprs.pop();
    if !exprs.is_empty() {
        drop(last);
        return None;
    }
    last
}
