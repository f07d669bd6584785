//! Laws of what is found of a package.

ghost use Rattle.checked_findings.specs.Laws as law;

/// What is found needs no spans but for its places: a tree and the same tree without its spans give
/// the same types and constants in the same order, and so do two trees that are the same but for
/// their spans.
pub fn findings_need_no_spans()
    ensures expressions { law.ExpressionsNeedNoSpans }
    ensures statements { law.StatementsNeedNoSpans }
    ensures moved { law.MovedStatementsAlike }
{}

/// What is found in a tree with other spans in the place of its own is what is found in the tree, at
/// the places that these spans have. So a declaration that stands further on in its file gives the
/// same findings, counted from where it starts.
pub fn findings_move_with_their_trees()
    ensures expressions { law.ExpressionsMove }
    ensures statements { law.StatementsMove }
    ensures declarations { law.DeclarationsMove }
    ensures counted { law.CountedFromStart }
{}

/// What is found depends on what the free names mean, and on no other names. So a declaration gives
/// the same beside other imports of its file that leave the names alone that it takes from around it.
pub fn found_alike_where_free_names_mean_the_same()
    ensures expressions { law.ExpressionsFoundAlike }
    ensures statements { law.StatementsFoundAlike }
    ensures declarations { law.DeclarationsFoundAlike }
{}

/// Where no two findings of a file have one place, a look-up by place gives each.
pub fn each_is_found_at_its_place()
    ensures { law.EachIsFound }
{}

/// Where the tokens of a text spell a file, its findings stand in the order in which their expressions end, parts
/// before their whole; so no two have one place, and a look-up by place gives each. Those of a declaration ascend too
/// where they are counted from its start.
pub fn findings_of_read_files_ascend()
    ensures ascend { law.FindingsAscend }
    ensures distinct { law.FindingsDistinct }
    ensures found { law.FindingsFound }
    ensures counted { law.CountedAscend }
{}
