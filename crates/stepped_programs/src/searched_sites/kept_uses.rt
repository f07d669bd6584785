//! The law of uses that stay kept.

ghost use Rattle.stepped_programs.specs.SearchedSites.KeptUses.Laws.{KeptUsesStay};

/// A use of a marked constant that is kept in one program is kept in another, by the same obstacle, where constant_forms is
/// told the same of it: what the constant is declared as, the paths of the packages, what names mean there, where the use
/// stands, the comments of its file, and whether a later member of a group repeats it (Go specification, Constant
/// declarations; Declarations and scope). So a search needs to look at it again only where a step changed its file or the
/// declaration that it uses.
pub fn kept_uses_stay()
    ensures { KeptUsesStay }
{}
