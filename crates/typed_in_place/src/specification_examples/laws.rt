//! Examples of the Go specification's sections on constants, types and conversions.

ghost use Rattle.typed_in_place.specs.SpecificationExamples.Constants.{ConstantExpressions, Conversions};
ghost use Rattle.typed_in_place.specs.SpecificationExamples.Constants.{Representability};
ghost use Rattle.typed_in_place.specs.SpecificationExamples.Identity.{MethodSets, TypeIdentity};

/// Constants are represented, computed and converted as the Go specification's sections Representability, Constant
/// expressions and Conversions say of their examples.
pub fn constants_as_specified()
    ensures represented { Representability }
    ensures computed { ConstantExpressions }
    ensures converted { Conversions }
{}

/// Types are identical and have methods as the Go specification's sections Type identity and Method sets say.
pub fn types_as_specified()
    ensures identical { TypeIdentity }
    ensures methods { MethodSets }
{}
