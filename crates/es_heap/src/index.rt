//! Which keys are array indices.
ghost use Rattle.std.specs.Prelude.{◌≡◌, ◌<◌, ◌≤◌, ◌^◌, length, true, false, MatchOption};
ghost use Rattle.std.specs.List.{list_all};
ghost use Rattle.es_value.specs.Convert.{is_digit, digits_value};
ghost use Rattle.es_heap.specs.Keys.{array_index, index_of_units, starts_well};

use crate::key::Key;

/// The array index that the key spells: the decimal text of a number below 2^32 - 1 (6.1.7).
pub fn array_index(key: &Key) -> Option<u32>
    ensures { result ≡ array_index key.now }
{
    match key {
        Key::Text(text) => index_of_units(text.units()),
        Key::Iterator => None,
    }
}

fn index_of_units(units: &[u16]) -> Option<u32>
    ensures { result ≡ index_of_units units.now }
{
    if units.len() > 10 || !starts_well(units) {
        return None;
    }
    let value = digits_value(units)?;
    if value < 4294967295 {
        Some(value as u32)
    } else {
        None
    }
}

/// There is a first unit, and it is no leading zero.
fn starts_well(units: &[u16]) -> bool
    ensures { result ≡ starts_well units.now }
{
    match units {
        [] => false,
        [_] => true,
        [first, ..] => *first != 48,
    }
}

/// The number that at most ten digits spell.
fn digits_value(units: &[u16]) -> Option<u64>
    requires { length units.now ≤ 10 }
    ensures { MatchOption result (list_all is_digit units.now ≡ false) (λ n. (list_all is_digit units.now ≡ true) × (n ≡ digits_value units.now) × (n < 2 ^ 64)) }
{
    let mut value = 0u64;
    for unit in units {
        if *unit < 48 || *unit > 57 {
            return None;
        }
        value = value * 10 + u64::from(*unit - 48);
    }
    Some(value)
}
