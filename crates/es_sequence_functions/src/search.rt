//! The search for a text in another.
ghost use Rattle.std.specs.Prelude.{◌≡◌, ◌≤◌, length, IfOk};
ghost use Rattle.memchr.specs.Find.{FindsNeedle};
ghost use Rattle.es_sequence_functions.specs.Search.{unit_bytes, encoded};
ghost use Rattle.es_sequence_functions.specs.Strings.{index_in};

use memchr::memmem;
use std::alloc::{AllocError, Global};

/// How many units are looked at first; after each stretch in which nothing was found, twice as many.
const FIRST_STRETCH: usize = 64;

/// More stretches than a text can have.
const STRETCHES: u32 = 64;

/// Three bytes for a unit, of which the first alone is 224 or above.
fn unit_bytes(unit: u16) -> [u8; 3]
    ensures { result ≡ unit_bytes unit }
{
    [
        (224 + unit / 4096) as u8,
        (128 + unit / 64 % 64) as u8,
        (128 + unit % 64) as u8,
    ]
}

/// A text as bytes, in which another text stands exactly where it stands in the text.
#[tactic(auto, using(crate::proofs::SearchLemmas::encoded_push))]
fn encoded(alloc: Global, units: &[u16]) -> Result<Vec<u8>, AllocError>
    ensures { IfOk result (λ bytes. bytes.items ≡ encoded units.now) }
{
    let mut bytes = Vec::new(alloc);
    for unit in units {
        bytes.extend_from_slice(&unit_bytes(*unit))?;
    }
    Ok(bytes)
}

/// The first place at which a text stands in another, in time linear in both.
fn find(alloc: Global, units: &[u16], search: &[u16]) -> Result<Option<usize>, AllocError>
    ensures { IfOk result (λ place. FindsNeedle units.now search.now 0 place) }
{
    let bytes = encoded(alloc, units)?;
    let sought = encoded(alloc, search)?;
    match memmem::find(bytes.as_slice(), sought.as_slice()) {
        None => Ok(None),
        Some(at) => Ok(Some(at / 3)),
    }
}

/// The least place from `start` on at which the text is found, or -1. Takes time linear in the text sought and in what lies before
/// the place, and not in what lies after it.
pub fn index_in(
    alloc: Global,
    units: &[u16],
    search: &[u16],
    start: usize,
) -> Result<i64, AllocError>
    requires { start ≤ length units.now }
    ensures { IfOk result (λ index. index ≡ index_in units.now search.now start) }
{
    let mut from = start;
    let mut stretch = search.len().saturating_mul(2).max(FIRST_STRETCH);
    for _ in 0..STRETCHES {
        if stretch >= units.len() - from || search.len() >= stretch {
            break;
        }
        if let Some(at) = find(alloc, &units[from..from + stretch], search)? {
            return Ok((from + at) as i64);
        }
        from += stretch - search.len();
        stretch = stretch.saturating_mul(2);
    }
    match find(alloc, &units[from..], search)? {
        None => Ok(-1),
        Some(at) => Ok((from + at) as i64),
    }
}
