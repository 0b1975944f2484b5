//! The characters and the 16-bit units of a text.

ghost use Rattle.std.specs.Prelude.{◌≡◌, ◌++◌, ◌<◌, ◌^◌, length, IfOk, IfErr, OnOk, OnErr, MatchResult, IsUtf8};
ghost use Rattle.std.specs.Str.{chars};
ghost use Rattle.es_text.specs.Units.{units_of_code_point, units, IsTextFault};
ghost use Rattle.es_text.specs.declared.units.TextFault.TheVariants.{OutOfMemory};

use std::alloc::{AllocError, Global};
use thiserror::Error;

/// Why bytes are no text.
#[derive(Clone, Copy, Debug, PartialEq, Eq, Error)]
pub enum TextFault {
    /// They are not UTF-8; `at` is the length in bytes of their longest front that is.
    #[error("not UTF-8 at byte {at}")]
    NotUtf8 { at: u32 },
    #[error("out of memory")]
    OutOfMemory,
}

impl From<AllocError> for TextFault {
    ghost from_gives = { λ _ fault. fault ≡ OutOfMemory };

    fn from(_error: AllocError) -> TextFault {
        TextFault::OutOfMemory
    }
}

/// The bytes as a text.
fn text_of(bytes: &[u8]) -> Result<&str, TextFault>
    requires { length bytes.now < 2 ^ 32 }
    ensures { MatchResult result (λ text. (text.now ≡ bytes.now) × IsUtf8 bytes.now) (λ fault. IsTextFault bytes.now fault) }
{
    match str::from_utf8(bytes) {
        Ok(text) => Ok(text),
        Err(error) => Err(TextFault::NotUtf8 {
            at: error.valid_up_to() as u32,
        }),
    }
}

fn characters(alloc: Global, text: &str) -> Result<Vec<char>, AllocError>
    ensures { IfOk result (λ cs. cs.items ≡ chars text.now) }
{
    text.chars().collect(alloc)
}

/// The characters of a text, decoded once.
pub fn chars_of(alloc: Global, bytes: &[u8]) -> Result<Vec<char>, TextFault>
    requires { length bytes.now < 2 ^ 32 }
    ensures { MatchResult result (λ cs. (cs.items ≡ chars bytes.now) × IsUtf8 bytes.now) (λ fault. IsTextFault bytes.now fault) }
{
    let text = text_of(bytes)?;
    Ok(characters(alloc, text)?)
}

/// Adds the one or two units of a code point, which may be a surrogate
/// (UTF16Encoding, ECMA-262, 6th edition, 10.1.1).
pub fn push_code_point(units: &mut Vec<u16>, code_point: u32) -> Result<(), AllocError>
    requires { code_point < 0x11_0000 }
    ensures ok { OnOk result (units.new.items ≡ units.old.items ++ units_of_code_point code_point) }
    ensures err { OnErr result (units.new.items ≡ units.old.items) }
{
    if code_point < 0x1_0000 {
        units.push(code_point as u16)?;
    } else {
        let over = code_point - 0x1_0000;
        let pair = [
            (0xD800 + over / 0x400) as u16,
            (0xDC00 + over % 0x400) as u16,
        ];
        units.extend_from_slice(&pair)?;
    }
    Ok(())
}

/// The 16-bit units of a text. `NotUtf8` comes exactly where the bytes are no UTF-8.
pub fn units_of(alloc: Global, bytes: &[u8]) -> Result<Vec<u16>, TextFault>
    requires { length bytes.now < 2 ^ 32 }
    ensures ok { IfOk result (λ us. (us.items ≡ units (chars bytes.now)) × IsUtf8 bytes.now) }
    ensures err { IfErr result (λ fault. IsTextFault bytes.now fault) }
{
    let cs = chars_of(alloc, bytes)?;
    // No character has more units than bytes.
    let mut units = Vec::with_capacity(alloc, bytes.len())?;
    for c in &cs {
        push_code_point(&mut units, *c as u32)?;
    }
    Ok(units)
}
