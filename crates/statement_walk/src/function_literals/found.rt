//! The function literals that stand in an expression (Go specification, Function literals).

ghost use Rattle.std.specs.Prelude.{◌≡◌, ◌++◌, ◌∷◌, [], OnOk};
ghost use Rattle.go_tree.specs.View.{boxed_expr_option_of, elems_of, expr_of, exprs_of, held_value_option_of, value_of};
ghost use Rattle.statement_walk.specs.FunctionLiterals.Found.{literals_in, literals_in_all, seen};
ghost use Rattle.statement_walk.specs.FunctionLiterals.Found.{literals_in_elems, literals_in_key};
ghost use Rattle.statement_walk.specs.FunctionLiterals.Found.{literals_in_option, literals_in_value};

use go_tree::{ElemList, Expr, ExprList, NoMemory, Value};

/// One more expression behind others.
fn add<'a>(found: &mut Vec<&'a Expr>, e: &'a Expr) -> Result<(), NoMemory>
    ensures { OnOk result (seen found.new.items ≡ seen found.old.items ++ expr_of e.now ∷ []) }
{
    found.push(e)?;
    Ok(())
}

/// The function literals in an expression are found, behind others; those in their bodies aren't.
#[cycle(literals)]
#[tactic(auto, using(crate::proofs::FoundLemmas::found_on, crate::proofs::FoundLemmas::none_found))]
pub fn find_literals<'a>(found: &mut Vec<&'a Expr>, e: &'a Expr) -> Result<(), NoMemory>
    ensures { OnOk result (seen found.new.items ≡ seen found.old.items ++ literals_in (expr_of e.now)) }
{
    match e {
        Expr::FuncLit { .. } => add(found, e),
        Expr::Ident { .. } => Ok(()),
        Expr::IntLit { .. } => Ok(()),
        Expr::RuneLit { .. } => Ok(()),
        Expr::StrLit { .. } => Ok(()),
        Expr::TypeOperand { .. } => Ok(()),
        Expr::Composite { elems, .. } => find_in_elems(found, elems),
        Expr::Selector { base, .. } => find_literals(found, base),
        Expr::Index { base, at, .. } => {
            find_literals(found, base)?;
            find_literals(found, at)
        }
        Expr::Slice { base, from, to, .. } => {
            find_literals(found, base)?;
            find_in_option(found, from)?;
            find_in_option(found, to)
        }
        Expr::Unary { e, .. } => find_literals(found, e),
        Expr::Star { e, .. } => find_literals(found, e),
        Expr::Binary { left, right, .. } => {
            find_literals(found, left)?;
            find_literals(found, right)
        }
        Expr::Call { callee, args, .. } => {
            find_literals(found, callee)?;
            find_in_all(found, args)
        }
    }
}

/// So are those in an expression that may be left out.
#[cycle(literals)]
#[tactic(auto, using(crate::proofs::FoundLemmas::found_on, crate::proofs::FoundLemmas::none_found))]
fn find_in_option<'a>(found: &mut Vec<&'a Expr>, e: &'a Option<Box<Expr>>) -> Result<(), NoMemory>
    ensures { OnOk result (seen found.new.items
        ≡ seen found.old.items ++ literals_in_option (boxed_expr_option_of e.now)) }
{
    match e {
        Some(e) => find_literals(found, e),
        None => Ok(()),
    }
}

/// So are those in a list of expressions.
#[cycle(literals)]
#[tactic(auto, using(crate::proofs::FoundLemmas::found_on, crate::proofs::FoundLemmas::none_found))]
pub fn find_in_all<'a>(found: &mut Vec<&'a Expr>, es: &'a ExprList) -> Result<(), NoMemory>
    ensures { OnOk result (seen found.new.items ≡ seen found.old.items ++ literals_in_all (exprs_of es.now)) }
{
    for e in es.items() {
        find_literals(found, e)?;
    }
    Ok(())
}

/// So are those in the elements of a composite literal.
#[cycle(literals)]
#[tactic(auto, using(crate::proofs::FoundLemmas::found_on, crate::proofs::FoundLemmas::none_found))]
fn find_in_elems<'a>(found: &mut Vec<&'a Expr>, es: &'a ElemList) -> Result<(), NoMemory>
    ensures { OnOk result (seen found.new.items ≡ seen found.old.items ++ literals_in_elems (elems_of es.now)) }
{
    for x in es.items() {
        find_in_key(found, &x.key)?;
        find_in_value(found, &x.value)?;
    }
    Ok(())
}

/// So are those in a key that may be left out.
#[cycle(literals)]
#[tactic(auto, using(crate::proofs::FoundLemmas::found_on, crate::proofs::FoundLemmas::none_found))]
fn find_in_key<'a>(found: &mut Vec<&'a Expr>, key: &'a Option<Value>) -> Result<(), NoMemory>
    ensures { OnOk result (seen found.new.items
        ≡ seen found.old.items ++ literals_in_key (held_value_option_of key.now)) }
{
    match key {
        Some(key) => find_in_value(found, key),
        None => Ok(()),
    }
}

/// So are those in a key or a value.
#[cycle(literals)]
#[tactic(auto, using(crate::proofs::FoundLemmas::found_on, crate::proofs::FoundLemmas::none_found))]
fn find_in_value<'a>(found: &mut Vec<&'a Expr>, x: &'a Value) -> Result<(), NoMemory>
    ensures { OnOk result (seen found.new.items ≡ seen found.old.items ++ literals_in_value (value_of x.now)) }
{
    match x {
        Value::Plain(e) => find_literals(found, e),
        Value::Braced { elems, .. } => find_in_elems(found, elems),
    }
}
