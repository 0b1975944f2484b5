//! The texts of names, which are kept in UTF-8 (ECMA-262, 6th edition, 11.8.4.1).

ghost use Rattle.std.specs.Prelude.{◌≡◌, ℕ, List, ◌<◌, ◌++◌, ◌∷◌, IfOk, OnOk};
ghost use Rattle.std.specs.Char.Escape.{encode_utf16};
ghost use Rattle.source_meaning.specs.Trees.{name_units};
ghost use Rattle.source_keys.specs.Texts.{end_of, led_by, limit, units_after};

use es_value::Str;
use std::alloc::{AllocError, Global};

/// A character whose first byte is read: how many of its bytes are to come, and the value of those so far.
#[derive(Clone, Copy)]
struct Begun {
    left: u8,
    code: u32,
}

/// The character that a byte begins.
fn begun_by(byte: u8) -> Begun
    ensures begun { result ≡ led_by byte }
    ensures within { result.code < limit result.left }
{
    if byte < 128 {
        Begun {
            left: 0,
            code: byte as u32,
        }
    } else if byte < 224 {
        Begun {
            left: 1,
            code: byte.saturating_sub(192) as u32,
        }
    } else if byte < 240 {
        Begun {
            left: 2,
            code: (byte - 224) as u32,
        }
    } else {
        Begun {
            left: 3,
            code: (byte - 240) as u32,
        }
    }
}

/// Adds the one or two units of a character.
fn push_units(units: &mut Vec<u16>, code: u32) -> Result<(), AllocError>
    requires { code < 4460608 }
    ensures { OnOk result (units.new.items ≡ units.old.items ++ encode_utf16 code) }
{
    if code < 0x1_0000 {
        units.push(code as u16)?;
        return Ok(());
    }
    let over = code - 0x1_0000;
    units.push((0xD800 + over / 0x400) as u16)?;
    units.push((0xDC00 + over % 0x400) as u16)?;
    Ok(())
}

/// What is under way behind one more byte.
fn followed(begun: Begun, byte: u8, units: &mut Vec<u16>) -> Result<Begun, AllocError>
    requires { begun.code < limit begun.left }
    ensures units { IfOk result (λ b. (rest : List ℕ) → units.new.items ++ units_after b rest ≡ units.old.items ++ units_after begun (byte ∷ rest)) }
    ensures within { IfOk result (λ b. b.code < limit b.left) }
{
    if begun.left == 0 {
        push_units(units, begun.code)?;
        return Ok(begun_by(byte));
    }
    Ok(Begun {
        left: begun.left - 1,
        code: begun.code * 64 + byte.saturating_sub(128) as u32,
    })
}

/// The last character, if all its bytes were there.
fn push_last(begun: Begun, units: &mut Vec<u16>) -> Result<(), AllocError>
    requires { begun.code < limit begun.left }
    ensures { OnOk result (units.new.items ≡ units.old.items ++ end_of begun) }
{
    if begun.left == 0 {
        push_units(units, begun.code)?;
    }
    Ok(())
}

fn push_all(units: &mut Vec<u16>, first: u8, rest: &[u8]) -> Result<(), AllocError>
    ensures { OnOk result (units.new.items ≡ units.old.items ++ units_after (led_by first) rest.now) }
{
    let mut begun = begun_by(first);
    for byte in rest {
        begun = followed(begun, *byte, units)?;
    }
    push_last(begun, units)
}

#[tactic(auto, using(crate::proofs::Units::units_led, crate::proofs::Units::units_none))]
fn push_name(units: &mut Vec<u16>, name: &[u8]) -> Result<(), AllocError>
    ensures { OnOk result (units.new.items ≡ units.old.items ++ name_units name.now) }
{
    match name.split_first() {
        None => Ok(()),
        Some((first, rest)) => push_all(units, *first, rest),
    }
}

/// The text of a name.
pub fn name_units(alloc: Global, name: &[u8]) -> Result<Str, AllocError>
    ensures { IfOk result (λ text. text ≡ name_units name.now) }
{
    let mut units = Vec::new(alloc);
    push_name(&mut units, name)?;
    Str::of_vec(alloc, units)
}
