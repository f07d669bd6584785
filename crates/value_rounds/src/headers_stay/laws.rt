//! Laws of headers once methods are known.

ghost use Rattle.value_rounds.specs.HeadersStay.Laws.{HeadersAreFinal, HeadersStay, NoneBefore};

/// A header declares the same before methods are known and after: a constant has no part that a method
/// gives, nor has the initialiser of a package variable (Go specification, Constant expressions; Package
/// initialization).
pub fn headers_are_final()
    ensures stay { HeadersStay }
    ensures programs { HeadersAreFinal }
    ensures none { NoneBefore }
{}
