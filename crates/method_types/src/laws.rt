//! Laws of the headers of methods that are refused.

ghost use Rattle.method_types.specs.Laws.{MethodsAside, RefusedByTypes};

/// Which headers of methods are refused is told by what types mean, which stays when constants, variables,
/// functions and methods are known.
pub fn refused_by_types()
    ensures refused { RefusedByTypes }
    ensures aside { MethodsAside }
{}
