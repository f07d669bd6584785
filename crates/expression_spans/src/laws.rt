//! Laws of the spans of expressions.

ghost use Rattle.expression_spans.specs.Laws as law;

/// Where the tokens of a text spell a file, the spans of its expressions ascend, parts before their whole: each ends
/// before those behind it do, or at the same byte and is the shorter. So no two expressions have one span. Each has a
/// byte at least, and lies in its declaration; declarations stand one behind the other.
pub fn spans_of_expressions_ascend()
    ensures ascend { law.ExpressionsAscend }
    ensures within { law.ExpressionsLieInDeclarations }
    ensures apart { law.DeclarationsStandApart }
{}
