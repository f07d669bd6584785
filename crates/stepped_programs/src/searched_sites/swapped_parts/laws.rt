//! Laws of parts that are swapped.

ghost use Rattle.stepped_programs.specs.SearchedSites.SwappedParts.Laws.{StepsSwapParts, SwapsKeep};

/// With a name in the place of a use the parts of a declaration that may be uses are those that it had, with those of
/// the name in the place of those of the use; the spans of all others stay (Go specification, Operands; Qualified
/// identifiers). So what holds of all of them, as that they come from within the file as read, still does.
pub fn steps_swap_parts()
    ensures swap { StepsSwapParts }
    ensures keep { SwapsKeep }
{}
