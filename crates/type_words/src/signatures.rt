//! The texts of functions' types (Go specification, Function types).

ghost use Rattle.std.specs.Prelude.{◌≡◌, ◌++◌, length, map, IfOk, OnOk};
ghost use Rattle.type_table.specs.Rows.{IdsBelow};
ghost use Rattle.type_table.specs.TypesAt.{types_by};
ghost use Rattle.type_table.specs.TypeRelations.Environment.{env_type};
ghost use Rattle.type_words.specs.TypeText.{results_text, signature_text};

use crate::faults::TypeFault;
use crate::names::{Home, add};
use crate::texts::{MAX_TYPE_DEPTH, add_tuple, add_type};
use std::alloc::Global;
use type_table::TypeId;
use type_table::type_relations::Env;

/// Adds the results of a function: one without parentheses, none without anything.
#[tactic(auto, using(crate::proofs::WrittenLemmas::results_several))]
fn add_results(
    text: &mut Vec<u8>,
    types: &Env,
    home: &Home,
    results: &[TypeId],
) -> Result<(), TypeFault>
    requires { IdsBelow (length types.now.rows) results.now }
    ensures { OnOk result (text.new.items ≡ text.old.items ++ results_text home.now.number home.now.paths.now
        (types_by (env_type types.now) (map (λ t. t.0) results.now))) }
{
    match results {
        [] => Ok(()),
        [one] => {
            add(text, b" ")?;
            add_type(text, types, home, *one, MAX_TYPE_DEPTH)
        }
        _ => {
            add(text, b" ")?;
            add_tuple(text, types, home, results, MAX_TYPE_DEPTH)?;
            Ok(())
        }
    }
}

/// The text of a function's type without `func`, by the types of its parameters and results, which have no names.
/// `TooLarge` as for `type_text`.
pub fn signature_text(
    alloc: Global,
    types: &Env,
    home: &Home,
    params: &[TypeId],
    results: &[TypeId],
) -> Result<Vec<u8>, TypeFault>
    requires params { IdsBelow (length types.now.rows) params.now }
    requires results { IdsBelow (length types.now.rows) results.now }
    ensures { IfOk result (λ text. text.items ≡ signature_text home.now.number home.now.paths.now
        (types_by (env_type types.now) (map (λ t. t.0) params.now))
        (types_by (env_type types.now) (map (λ t. t.0) results.now))) }
{
    let mut text = Vec::new(alloc);
    add_tuple(&mut text, types, home, params, MAX_TYPE_DEPTH)?;
    add_results(&mut text, types, home, results)?;
    Ok(text)
}
