//! Laws of methods.

ghost use Rattle.method_headers.specs.Laws.{HeadersByTypes, MethodsAreFound, MethodsByParts, MethodsByTypes};

/// What the header of a method declares is told by its receiver and by the type of the method.
pub fn methods_by_parts()
    ensures { MethodsByParts }
{}

/// Methods are the same wherever types mean the same, whatever else is known.
pub fn methods_by_types()
    ensures methods { MethodsByTypes }
    ensures headers { HeadersByTypes }
{}

/// A defined type has the methods that are declared on it.
pub fn declared_methods_are_found()
    ensures { MethodsAreFound }
{}
