//! The law of words of files.

ghost use Rattle.splice_laws.specs.ImportSplices.SupportedWords.Laws.{ConstraintsStay, SpelledTextsAreSupported};
ghost use Rattle.splice_laws.specs.ImportSplices.SupportedWords.Laws.{SpelledWordsAreSupported};

/// Tokens that spell a file hold no word that isn't supported, since no production has one; so a text whose tokens do
/// has such a word only where a build constraint stands before its package clause.
pub fn spelled_words_are_supported()
    ensures words { SpelledWordsAreSupported }
    ensures texts { SpelledTextsAreSupported }
{}

/// A text that is another one up to the end of the package's name has no build constraint before its package clause
/// where the other has none; so a text whose imports and declarations are edited has none.
pub fn constraints_stay()
    ensures { ConstraintsStay }
{}
