//! Numbers in words.

ghost use Rattle.std.specs.Prelude.{◌≡◌};
ghost use Rattle.std.specs.Char.{is_ascii_digit};
ghost use Rattle.std.specs.List.{list_all};
ghost use Rattle.command_words.specs.Numbers.{number_of};

/// The most digits of a number.
const MOST_DIGITS: usize = 13;

/// The number that a word writes: from one to 13 decimal digits, and a value from 1 to `most`.
#[tactic(auto, using(crate::proofs::Numerals::reads))]
pub fn number_of(word: &str, most: u64) -> Option<u64>
    ensures { result ≡ number_of most word.now }
{
    let bytes = word.as_bytes();
    if bytes.is_empty() || bytes.len() > MOST_DIGITS || !are_digits(bytes) {
        return None;
    }
    let number = word.parse::<u64>().ok()?;
    if number == 0 || number > most {
        return None;
    }
    Some(number)
}

fn are_digits(bytes: &[u8]) -> bool
    ensures { result ≡ list_all is_ascii_digit bytes.now }
{
    bytes.iter().all(|byte| byte.is_ascii_digit())
}
