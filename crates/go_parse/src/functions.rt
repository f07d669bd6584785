//! Functions and methods (Go specification, Function declarations, Method declarations).

ghost use Rattle.std.specs.Prelude.{◌≡◌};
ghost use Rattle.std.specs.Option.{option_map};
ghost use Rattle.go_tree.specs.View.{name_at_of};
ghost use Rattle.go_tree.specs.FileView.{decl_of, receiver_of};
ghost use Rattle.go_productions.specs.Cursors.{ahead};
ghost use Rattle.go_read.specs.SpellsSpans.{span_to};
ghost use Rattle.go_read.specs.Goals.{read_receiver};
ghost use Rattle.go_read.specs.ReadFiles.{may_be_variadic};
ghost use Rattle.go_read.specs.Reading.{at};
ghost use Rattle.go_tree.specs.declared.go_words.terminals.Terminal.TheVariants as terminal;
ghost use Rattle.go_productions.specs.Terminals.{first_of};
ghost use Rattle.go_productions.specs.Answers.{Gives, Shorter};
ghost use Rattle.go_parse.specs.Parts.{func_at, func_decl_at, func_parts_at, is_star, method_at, parts_of};
ghost use Rattle.go_parse.specs.Parts.{receiver_here};

use go_productions::{Cursor, Reading, name, signature};
use go_statements::block;
use go_tree::go_words::Terminal;
use go_tree::{BinOp, Block, Decl, FuncDecl, NameAt, Receiver, Sig};

/// Whether it is `*`.
fn is_star(terminal: Terminal) -> bool
    ensures { result ≡ is_star terminal }
{
    matches!(terminal, Terminal::Binary(BinOp::Mul))
}

/// The receiver that begins at `whole` and whose type's name stands first of `of`.
fn receiver_from<'a>(
    whole: Cursor,
    name: Option<NameAt>,
    pointer: bool,
    of: Cursor<'a>,
) -> Reading<'a, Receiver>
    requires { first_of (ahead of) ≡ terminal.Ident }
    ensures gives { Gives receiver_of result
        (receiver_here (ahead whole.entry) (option_map name_at_of name) pointer (ahead of.entry)) }
    ensures shorter { Shorter result of.entry }
{
    let after = of.rest();
    let span = whole.span_to(after);
    let of = go_productions::name(of)?;
    let receiver = Receiver {
        span,
        name,
        pointer,
        of,
    };
    Ok(Some((receiver, after)))
}

/// A receiver that begins with a name: its own, or that of its type.
fn named_receiver<'a>(tokens: Cursor<'a>) -> Reading<'a, Receiver>
    requires { first_of (ahead tokens) ≡ terminal.Ident }
    ensures gives { Gives receiver_of result
        (at span_to read_receiver (ahead tokens.entry)) }
    ensures shorter { Shorter result tokens.entry }
{
    let second = tokens.rest();
    let starred = is_star(second.first());
    if starred {
        let third = second.rest();
        let Terminal::Ident = third.first() else {
            return receiver_from(tokens, None, false, tokens);
        };
        let own = name(tokens)?;
        return receiver_from(tokens, Some(own), true, third);
    }
    let Terminal::Ident = second.first() else {
        return receiver_from(tokens, None, false, tokens);
    };
    let own = name(tokens)?;
    receiver_from(tokens, Some(own), false, second)
}

/// A receiver without the parentheses around it.
fn receiver<'a>(tokens: Cursor<'a>) -> Reading<'a, Receiver>
    ensures gives { Gives receiver_of result
        (at span_to read_receiver (ahead tokens.entry)) }
    ensures shorter { Shorter result tokens.entry }
{
    let starred = is_star(tokens.first());
    if starred {
        let second = tokens.rest();
        let Terminal::Ident = second.first() else {
            return Ok(None);
        };
        return receiver_from(tokens, None, true, second);
    }
    let Terminal::Ident = tokens.first() else {
        return Ok(None);
    };
    named_receiver(tokens)
}

/// Whether the last parameter may be variadic: that of a function may, that of a method may not.
fn may_be_variadic(receiver: &Option<Receiver>) -> bool
    ensures { result ≡ may_be_variadic span_to (option_map receiver_of receiver.now) }
{
    match receiver {
        None => true,
        Some(_) => false,
    }
}

/// What follows the keyword of a function, or the receiver of a method.
#[derive(Drop)]
struct FuncParts {
    name: NameAt,
    sig: Sig,
    body: Block,
}

/// The name, signature and body of a function.
fn func_parts<'a>(tokens: Cursor<'a>, variadic: bool) -> Reading<'a, FuncParts>
    ensures gives { Gives parts_of result (func_parts_at variadic (ahead tokens.entry)) }
    ensures shorter { Shorter result tokens.entry }
{
    let Terminal::Ident = tokens.first() else {
        return Ok(None);
    };
    let Some((sig, after)) = signature(tokens.rest(), variadic)? else {
        return Ok(None);
    };
    let Some((body, after)) = block(after)? else {
        return Ok(None);
    };
    let name = name(tokens)?;
    Ok(Some((FuncParts { name, sig, body }, after)))
}

/// The name, signature and body of a function whose declaration begins at `whole`.
#[tactic(auto, using(crate::proofs::FunctionSteps::func_without, crate::proofs::FunctionSteps::func_some))]
fn function<'a>(whole: Cursor, receiver: Option<Receiver>, tokens: Cursor<'a>) -> Reading<'a, Decl>
    ensures gives { Gives decl_of result
        (func_at (ahead whole.entry) (option_map receiver_of receiver) (ahead tokens.entry)) }
    ensures shorter { Shorter result tokens.entry }
{
    match func_parts(tokens, may_be_variadic(&receiver)) {
        Ok(Some((parts, after))) => {
            let span = whole.span_to(after);
            let decl = FuncDecl {
                span,
                receiver,
                name: parts.name,
                sig: parts.sig,
                body: parts.body,
            };
            Ok(Some((Decl::Func(decl), after)))
        }
        Ok(None) => {
            drop(receiver);
            Ok(None)
        }
        Err(fault) => {
            drop(receiver);
            Err(fault)
        }
    }
}

/// A method whose declaration begins at `whole`, after the parenthesis before its receiver.
fn method<'a>(whole: Cursor, tokens: Cursor<'a>) -> Reading<'a, Decl>
    ensures gives { Gives decl_of result
        (method_at (ahead whole.entry) (ahead tokens.entry)) }
    ensures shorter { Shorter result tokens.entry }
{
    let Some((receiver, after)) = receiver(tokens)? else {
        return Ok(None);
    };
    let Terminal::EndParen = after.first() else {
        return Ok(None);
    };
    function(whole, Some(receiver), after.rest())
}

/// A function or a method, whose first token is its keyword.
pub(crate) fn func_decl<'a>(tokens: Cursor<'a>) -> Reading<'a, Decl>
    ensures gives { Gives decl_of result
        (func_decl_at (ahead tokens.entry)) }
    ensures shorter { Shorter result tokens.entry }
{
    let inner = tokens.rest();
    if let Terminal::Paren = inner.first() {
        method(tokens, inner.rest())
    } else {
        function(tokens, None, inner)
    }
}
