//! What may follow an operand (Go specification, Selectors, Index expressions, Slice expressions, Calls).

ghost use Rattle.std.specs.Prelude.{◌≡◌, true};
ghost use Rattle.go_tree.specs.View.{boxed_expr_option_of, expr_of};
ghost use Rattle.go_productions.specs.Cursors.{ahead};
ghost use Rattle.go_expressions.specs.Bodies.{Ready};
ghost use Rattle.go_productions.specs.Answers.{Gives, Shorter};
ghost use Rattle.go_expressions.specs.ExprParts.{brackets_at, continues, high_at, postfix_at};

use crate::basics::is_func_lit;
use crate::bodies::{Place, Taken};
use crate::exprs::{call_args, expression};
use go_productions::{Cursor, Reading, name};
use go_tree::go_words::Terminal;
use go_tree::{Expr, call_expr, index_expr, selector_expr, slice_expr};

/// Whether arguments, a name after a dot, an index or bounds stand first.
pub(crate) fn continues(tokens: Cursor) -> bool
    ensures { continues (ahead tokens.entry) ≡ result }
{
    match tokens.first() {
        Terminal::Paren | Terminal::Bracket => true,
        Terminal::Dot => matches!(tokens.rest().first(), Terminal::Ident),
        _ => false,
    }
}

/// One part after an operand, which begins with the first token of `whole`.
#[cycle(expressions)]
#[tactic(auto, using(crate::proofs::PostfixArms::call_none, crate::proofs::PostfixArms::call_some, crate::proofs::PostfixArms::func_none, crate::proofs::PostfixArms::select_some, crate::proofs::PostfixArms::dot_word, crate::proofs::PostfixArms::bracket_on))]
pub(crate) fn postfix<'a, F: Fn(Cursor) -> Taken>(
    whole: Cursor,
    base: Box<Expr>,
    place: Place<'a, '_, F>,
) -> Reading<'a, Expr>
    requires ready { Ready F.Fn place }
    requires goes_on { continues (ahead place.at) ≡ true }
    ensures gives { Gives expr_of result
        (postfix_at (ahead whole.entry) (expr_of base.value) (ahead place.entry.at)) }
    ensures shorter { Shorter result place.entry.at }
{
    if let Terminal::Paren = place.at.first() {
        let Some((args, left)) = call_args(Place {
            at: place.at.rest(),
            ..place
        })?
        else {
            return Ok(None);
        };
        let span = whole.span_to(left);
        return Ok(Some((call_expr(span, base, args.list, args.rest), left)));
    }
    if is_func_lit(&base) {
        return Ok(None);
    }
    let Terminal::Dot = place.at.first() else {
        return brackets(
            whole,
            base,
            Place {
                at: place.at.rest(),
                ..place
            },
        );
    };
    let name = name(place.at.rest())?;
    let left = place.at.rest().rest();
    let span = whole.span_to(left);
    Ok(Some((selector_expr(span, base, name), left)))
}

/// An index or bounds, after the opening bracket.
#[cycle(expressions)]
#[tactic(auto, using(crate::proofs::PostfixArms::colon_first, crate::proofs::PostfixArms::index_none, crate::proofs::PostfixArms::index_some, crate::proofs::PostfixArms::index_colon, crate::proofs::PostfixArms::index_stop))]
fn brackets<'a, F: Fn(Cursor) -> Taken>(
    whole: Cursor,
    base: Box<Expr>,
    place: Place<'a, '_, F>,
) -> Reading<'a, Expr>
    requires ready { Ready F.Fn place }
    ensures gives { Gives expr_of result
        (brackets_at (ahead whole.entry) (expr_of base.value) (ahead place.entry.at)) }
    ensures shorter { Shorter result place.entry.at }
{
    if let Terminal::Colon = place.at.first() {
        return bounds(
            whole,
            base,
            None,
            Place {
                at: place.at.rest(),
                ..place
            },
        );
    }
    let Some((at, left)) = expression(Place {
        header: false,
        ..place
    })?
    else {
        return Ok(None);
    };
    let at = Box::new(place.at.room.alloc, at)?;
    match left.first() {
        Terminal::Colon => bounds(
            whole,
            base,
            Some(at),
            Place {
                at: left.rest(),
                ..place
            },
        ),
        Terminal::EndBracket => {
            let left = left.rest();
            let span = whole.span_to(left);
            Ok(Some((index_expr(span, base, at), left)))
        }
        _ => Ok(None),
    }
}

/// What follows the colon of a slice expression.
#[cycle(expressions)]
#[tactic(auto, using(crate::proofs::PostfixArms::high_end, crate::proofs::PostfixArms::high_none, crate::proofs::PostfixArms::high_stop, crate::proofs::PostfixArms::high_some))]
fn bounds<'a, F: Fn(Cursor) -> Taken>(
    whole: Cursor,
    base: Box<Expr>,
    from: Option<Box<Expr>>,
    place: Place<'a, '_, F>,
) -> Reading<'a, Expr>
    requires ready { Ready F.Fn place }
    ensures gives { Gives expr_of result
        (high_at (ahead whole.entry) (expr_of base.value) (boxed_expr_option_of from) (ahead place.entry.at)) }
    ensures shorter { Shorter result place.entry.at }
{
    if let Terminal::EndBracket = place.at.first() {
        let left = place.at.rest();
        let span = whole.span_to(left);
        return Ok(Some((slice_expr(span, base, from, None), left)));
    }
    let Some((to, left)) = expression(Place {
        header: false,
        ..place
    })?
    else {
        return Ok(None);
    };
    let to = Box::new(place.at.room.alloc, to)?;
    let Terminal::EndBracket = left.first() else {
        return Ok(None);
    };
    let left = left.rest();
    let span = whole.span_to(left);
    Ok(Some((slice_expr(span, base, from, Some(to)), left)))
}
