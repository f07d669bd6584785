//! Numbers by their digits (Go specification, Integer literals, Rune literals).

ghost use Rattle.std.specs.Prelude.{◌≡◌, ◌<◌, ◌^◌};
ghost use Rattle.go_tree.specs.GoWords.Texts.{digits_in, hex_digit};

/// The number that digits of a base spell.
pub(crate) fn short_number(base: u32, digits: &[u8]) -> u32
    requires base { 0 < base }
    requires small { digits_in base 0 digits.now < 2 ^ 32 }
    ensures { result ≡ digits_in base 0 digits.now }
{
    let mut value: u32 = 0;
    for digit in digits {
        value = value * base + u32::from(digit_value(*digit));
    }
    value
}

/// The value of a digit of any base up to 16.
pub fn digit_value(digit: u8) -> u8
    ensures { result ≡ hex_digit digit }
{
    if digit <= b'9' {
        digit.saturating_sub(b'0')
    } else if digit <= b'F' {
        digit.saturating_sub(b'A' - 10)
    } else {
        digit.saturating_sub(b'a' - 10)
    }
}
