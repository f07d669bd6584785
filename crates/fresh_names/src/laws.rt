//! Laws of new names.

ghost use Rattle.fresh_names.specs.Laws as law;
ghost use Rattle.go_tree.specs.declared.spans.Span.{Span};
ghost use Rattle.run_rules.specs.Steps.{At};

/// Wherever a candidate for a name is new, the first that is new is found, however many names are to be
/// avoided. One is new where the names that are not stand among at most 10^64 + 10^63; some names to
/// avoid leave none.
pub fn new_names_are_found()
    ensures found { law.NewNamesAreFound At }
    ensures left { law.FewNamesLeaveNewOnes At }
    ensures out { law.NewNamesRunOut At }
{}

/// So the name that a package gets at a place is the one that is needed there, wherever a candidate for
/// it is new: in a file as read, and in one as a run leaves it.
pub fn packages_get_needed_names()
    ensures read { law.PackagesGetNeededNames Span }
    ensures standing { law.PackagesGetNeededNames At }
{}
