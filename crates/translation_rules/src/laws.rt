//! Laws of rules.

ghost use Rattle.translation_rules.specs.Laws.{ExpressionsHaveRules, PackagesHaveRules, StatementsHaveRules};

/// The translation has a rule for each part of well-typed packages: the term of a value is never the one that does
/// nothing, a left side other than `_` is a place, a map's element that is asked for with whether it is there is one of
/// a map, selectors and literals count fields that the type has, and what is deferred is a call.
pub fn no_rule_is_missing()
    ensures expressions { ExpressionsHaveRules }
    ensures statements { StatementsHaveRules }
    ensures packages { PackagesHaveRules }
{}
