//! The literal of a function, called in place.

ghost use Rattle.std.specs.Prelude.{◌≡◌, Bool, IfOk, List, map};
ghost use Rattle.go_tree.specs.FileView.{func_of};
ghost use Rattle.go_tree.specs.View.{expr_of, exprs_of, name_at_of, param_of, sig_of};
ghost use Rattle.pkg_graph.specs.Package.{Package};
ghost use Rattle.run_rules.specs.Calls.{Call};
ghost use Rattle.run_rules.specs.Naming.{Names};
ghost use Rattle.run_rules.specs.Run.{here_of};
ghost use Rattle.run_rules.specs.Steps.{At, same_here};
ghost use Rattle.call_forms.specs.Calls.{IsToldCall, IsLiteralOf};
ghost use Rattle.call_forms.specs.Literal.{literal_call, literal_func, literal_name, literal_param, literal_sig};

use crate::qualifiers::There;
use crate::stmts::written_block;
use crate::types::{placed_name, written_params, written_type};
use go_tree::{
    Expr, ExprList, FuncDecl, Name, NameAt, NoMemory, Param, ParamList, Rest, Sig, call_expr,
    func_lit_expr,
};
use std::alloc::Global;

/// The name of a parameter of the literal: its own, or `_` where it has none (Go specification, Blank identifier).
fn literal_name(alloc: Global, there: &There, p: &Param) -> Result<NameAt, NoMemory>
    ensures { IfOk result (λ n. name_at_of n ≡ literal_name there.now (param_of p.now)) }
{
    match &p.name {
        Some(name) => placed_name(alloc, there, &name.name),
        None => Ok(NameAt {
            span: there.span,
            name: Name::copied(alloc, b"_")?,
        }),
    }
}

fn literal_param(alloc: Global, there: &There, p: &Param) -> Result<Param, NoMemory>
    ensures { IfOk result (λ c. param_of c ≡ literal_param there.now (param_of p.now)) }
{
    Ok(Param {
        span: there.span,
        name: Some(literal_name(alloc, there, p)?),
        rest: p.rest,
        of: written_type(alloc, there, &p.of)?,
    })
}

#[tactic(auto, using(crate::proofs::Lists::map_written))]
fn literal_params(alloc: Global, there: &There, params: &ParamList) -> Result<ParamList, NoMemory>
    ensures { IfOk result (λ c. map param_of c ≡ map (literal_param there.now) (map param_of params.now)) }
{
    let mut copies = Vec::new(alloc);
    for param in params.items() {
        copies.push(literal_param(alloc, there, param)?)?;
    }
    Ok(ParamList::of(copies))
}

/// The signature of the literal: parameters without a name are named `_`, and results stand as they are declared.
fn literal_sig(alloc: Global, there: &There, sig: &Sig) -> Result<Sig, NoMemory>
    ensures { IfOk result (λ c. sig_of c ≡ literal_sig there.now (sig_of sig.now)) }
{
    Ok(Sig {
        params: literal_params(alloc, there, &sig.params)?,
        results: written_params(alloc, there, &sig.results)?,
    })
}

/// The literal of a function.
fn literal_func(alloc: Global, there: &There, callee: &FuncDecl) -> Result<Box<Expr>, NoMemory>
    ensures { IfOk result (λ e. expr_of e.value ≡ literal_func there.now (func_of callee.now)) }
{
    let body = written_block(alloc, there, &callee.body)?;
    let sig = literal_sig(alloc, there, &callee.sig)?;
    Ok(Box::new(alloc, func_lit_expr(there.span, sig, body))?)
}

/// What a call of a function becomes that is given these arguments: a literal of the function, called in place (Go
/// specification, Function literals; Calls). All parameters stay bound: each has its own name, `_` where it has none,
/// and its own type, and results stand as they are declared. The names that the function takes from outside have the
/// names of packages before them that they need there, and the arguments stay as they are, be they one call with
/// several results too. A deferred call becomes the same expression.
///
/// An error where memory is refused. Linear in the function, with a look-up for each name.
pub fn literal_form(
    alloc: Global,
    there: &There,
    callee: &FuncDecl,
    args: ExprList,
) -> Result<Expr, NoMemory>
    ensures tree { IfOk result (λ e. expr_of e ≡ literal_call there.now (func_of callee.now) (exprs_of args)) }
    ensures form { IfOk result (λ e. (ps : List (Package At)) (c : Call At) (names : Names) (kept : List Bool)
        → IsToldCall here_of same_here ps c names kept there.now (func_of callee.now) (exprs_of args)
        → IsLiteralOf here_of same_here ps c names kept (expr_of e)) }
{
    let literal = literal_func(alloc, there, callee)?;
    Ok(call_expr(there.span, literal, args, Rest::Plain))
}
