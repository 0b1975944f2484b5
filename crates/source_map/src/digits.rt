//! The digits of `mappings`: base64 letters for 0 to 63.
ghost use Rattle.std.specs.Prelude.{◌≡◌, ◌<◌};
ghost use Rattle.source_map.specs.Digits.{digit_of, letter};

/// The digit that a character stands for.
#[tactic(auto, unfolding(crate::specs::Digits::digit_of))]
pub(crate) fn digit(character: u8) -> Option<u8>
    ensures { result ≡ digit_of character }
{
    match character {
        b'A'..=b'Z' => Some(character - b'A'),
        b'a'..=b'z' => Some(character - b'a' + 26),
        b'0'..=b'9' => Some(character - b'0' + 52),
        b'+' => Some(62),
        b'/' => Some(63),
        _ => None,
    }
}

/// The character of a digit.
#[tactic(auto, unfolding(crate::specs::Digits::letter))]
pub(crate) fn letter_of(digit: u8) -> u8
    requires { digit < 64 }
    ensures letter { result ≡ letter digit }
    ensures ascii { result < 128 }
{
    match digit {
        0..=25 => b'A' + digit,
        26..=51 => b'a' + (digit - 26),
        52..=61 => b'0' + (digit - 52),
        62 => b'+',
        _ => b'/',
    }
}
