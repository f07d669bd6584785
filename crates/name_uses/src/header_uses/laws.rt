//! The law of walks over declarations.

ghost use Rattle.name_uses.specs.HeaderUses.Laws.{PlacesKnowFinalTypes, WalksFindUsesOfHeaders};

/// A walk over the declarations of a file finds exactly the names that one of their headers uses, of those
/// at the top of the file (Go specification, Declarations and scope; Import declarations).
pub fn walks_find_uses_of_headers()
    ensures { WalksFindUsesOfHeaders }
{}

/// The place of a file as the tables have it means the same types and packages as that of its headers in the
/// final world, where the tables' names mean those of the world in which all headers are known
/// (func_headers' `FunctionsAreDeclared`).
pub fn places_know_final_types()
    ensures { PlacesKnowFinalTypes }
{}
