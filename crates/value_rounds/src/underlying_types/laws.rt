//! Laws of chains of declared types.

ghost use Rattle.value_rounds.specs.UnderlyingTypes.Chains.{EndedChains, UnderByNumber};

/// A chain of declared types by their numbers leads to the underlying type, and goes no further once
/// it has ended.
#[tactic(auto, using(crate::proofs::UnderlyingTypes::ChainLaws::under_by_number))]
pub fn chains_of_names_end()
    ensures under { UnderByNumber }
    ensures ended { EndedChains }
{}
