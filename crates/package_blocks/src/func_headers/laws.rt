//! Laws of the rounds in which names are found.

ghost use Rattle.package_blocks.specs.FuncHeaders.Functions.{RefusedAreWrong, TypesStay};

/// The names of types mean the same once constants, variables and functions are known (Go specification,
/// Declarations and scope).
#[tactic(auto, using(crate::proofs::FuncHeaders::StayLaws::types_stay))]
pub fn types_stay()
    ensures { TypesStay }
{}

/// The headers of functions that are refused are those that aren't right once methods are known too.
pub fn refused_functions_are_wrong()
    ensures { RefusedAreWrong }
{}
