//! Laws of functions' results.

ghost use Rattle.translation_rules.specs.DeclaredResults.Laws.{
  ExportedFunctionsHaveTheirResults,
  FunctionsHaveTheirResults,
  MethodsHaveTheirResults,
};

/// A function that a name of a package block means, here or in a package that imports it, has as many results in the
/// program of the packages as by its type, and so has a method of a defined type: of several declarations with one name
/// the first counts, for typing and for the program.
pub fn declared_functions_have_their_results()
    ensures functions { FunctionsHaveTheirResults }
    ensures exported { ExportedFunctionsHaveTheirResults }
    ensures methods { MethodsHaveTheirResults }
{}
