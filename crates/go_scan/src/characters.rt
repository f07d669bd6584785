//! Characters of Go source (Go specification, Letters and digits, Tokens).

ghost use Rattle.std.specs.Prelude.{◌≡◌, ◌<◌, ◌≤◌, length, chars};
ghost use Rattle.go_scan.specs.Sizes.{size_while};
ghost use Rattle.go_tree.specs.GoWords.Tokens.Characters.{is_letter, is_digit, is_word, is_blank, is_letter_category};
ghost use Rattle.go_tree.specs.GoWords.Tokens.Characters.{is_decimal_number};

use unicode::properties::GeneralCategory;

/// The byte order mark.
pub(crate) const BYTE_ORDER_MARK: char = '\u{feff}';

#[tactic(auto, using(crate::proofs::LetterLemmas::letter_ascii))]
fn is_ascii_letter(c: char) -> bool
    requires { c < 128 }
    ensures { result ≡ is_letter c }
{
    matches!(c, 'a'..='z' | 'A'..='Z' | '_')
}

#[tactic(auto, using(crate::proofs::LetterLemmas::digit_ascii))]
fn is_ascii_digit(c: char) -> bool
    requires { c < 128 }
    ensures { result ≡ is_digit c }
{
    c.is_ascii_digit()
}

fn is_letter_category(category: GeneralCategory) -> bool
    ensures { result ≡ is_letter_category category }
{
    matches!(
        category,
        GeneralCategory::UppercaseLetter
            | GeneralCategory::LowercaseLetter
            | GeneralCategory::TitlecaseLetter
            | GeneralCategory::ModifierLetter
            | GeneralCategory::OtherLetter
    )
}

fn is_decimal_number(category: GeneralCategory) -> bool
    ensures { result ≡ is_decimal_number category }
{
    matches!(category, GeneralCategory::DecimalNumber)
}

/// Whether an identifier may begin with the character.
#[tactic(auto, using(crate::proofs::LetterLemmas::letter_past))]
pub(crate) fn is_letter(c: char) -> bool
    ensures { result ≡ is_letter c }
{
    if c.is_ascii() {
        is_ascii_letter(c)
    } else {
        is_letter_category(GeneralCategory::for_char(c))
    }
}

#[tactic(auto, using(crate::proofs::LetterLemmas::digit_past))]
fn is_digit(c: char) -> bool
    ensures { result ≡ is_digit c }
{
    if c.is_ascii() {
        is_ascii_digit(c)
    } else {
        is_decimal_number(GeneralCategory::for_char(c))
    }
}

/// Whether an identifier may go on with the character.
pub(crate) fn is_word(c: char) -> bool
    ensures { result ≡ is_word c }
{
    is_letter(c) || is_digit(c)
}

/// Whether the character is a space, a tab, a carriage return or a newline.
pub(crate) fn is_blank(c: char) -> bool
    ensures { result ≡ is_blank c }
{
    matches!(c, ' ' | '\t' | '\r' | '\n')
}

/// How many bytes the characters at the front have with which an identifier may go on.
pub(crate) fn word_size(text: &str) -> usize
    ensures value { result ≡ size_while is_word (chars text.now) }
    ensures within { result ≤ length text.now }
{
    let mut size = 0;
    let mut rest = text.chars();
    while let Some(c) = rest.next() {
        if is_word(c) {
            size += c.len_utf8();
        } else {
            return size;
        }
    }
    size
}

/// How many bytes the blanks at the front have.
pub(crate) fn blanks_size(text: &str) -> usize
    ensures value { result ≡ size_while is_blank (chars text.now) }
    ensures within { result ≤ length text.now }
{
    let mut size = 0;
    let mut rest = text.chars();
    while let Some(c) = rest.next() {
        if is_blank(c) {
            size += c.len_utf8();
        } else {
            return size;
        }
    }
    size
}
