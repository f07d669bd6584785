//! Laws of constants and variables that are found name by name.

ghost use Rattle.typed_in_place.specs.NameRounds.Laws as law;

/// A spec of constants or variables is refused exactly where one of its names is, each with its own
/// value, and declares what they declare.
pub fn specs_are_their_names()
    ensures declared { law.DeclaredWhereNamesAre }
    ensures together { law.NamesDeclareTogether }
{}

/// Each round by names only adds, and each round of headers behind them only refuses; where each single
/// name is declared no header is refused.
pub fn rounds_by_names_and_of_headers()
    ensures added { law.NamesAreAdded }
    ensures refused { law.HeadersAreRefused }
    ensures none { law.NoneIsRefused }
{}

/// A constant that is declared as the name of another means what the other means, and an alias the type
/// that its declaration writes, where the rounds by names end, where those of headers do, and at last.
pub fn names_mean_what_they_declare()
    ensures constant { law.ConstantMeansAnother }
    ensures alias { law.AliasMeansItsType }
{}

/// Programs whose headers and single names declare the same at the end of their rounds declare the
/// same: so do programs that are equal but for spans. A header with parts replaced may stand for the
/// header name by name.
pub fn same_programs_declare_the_same()
    ensures alike { law.AlikeDeclareTheSame }
    ensures replaced { law.ReplacedStand }
    ensures spans { law.ButForSpans }
{}
