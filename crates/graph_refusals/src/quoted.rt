//! Texts between quotes.

ghost use Rattle.std.specs.Prelude.{◌≡◌, ◌++◌, ◌<◌, IfOk, OnOk};
ghost use Rattle.graph_refusals.specs.Quoted.{quoted, quoted_units, quoted_unit, escaped, hex_digit, is_plain, name_units};

use shared_text::{Name, Units};
use std::alloc::{AllocError, Global};

/// The units of a name.
pub fn units_of_name(alloc: Global, name: &Name) -> Result<Units, AllocError>
    ensures { IfOk result (λ units. units ≡ name_units name.now) }
{
    match str::from_utf8(name.bytes()) {
        Ok(text) => Units::of(alloc, text),
        Err(_) => units_of_bytes(alloc, name.bytes()),
    }
}

fn units_of_bytes(alloc: Global, bytes: &[u8]) -> Result<Units, AllocError>
    ensures { IfOk result (λ units. units ≡ bytes.now) }
{
    let mut list = Vec::new(alloc);
    for byte in bytes {
        list.push(u16::from(*byte))?;
    }
    Ok(Units::of_units(list))
}

/// A text between quotes.
pub fn push_quoted(line: &mut Vec<u8>, units: &[u16]) -> Result<(), AllocError>
    ensures { OnOk result (line.new.items ≡ line.old.items ++ quoted units.now) }
{
    line.push(b'"')?;
    push_units(line, units)?;
    line.push(b'"')?;
    Ok(())
}

fn push_units(line: &mut Vec<u8>, units: &[u16]) -> Result<(), AllocError>
    ensures { OnOk result (line.new.items ≡ line.old.items ++ quoted_units units.now) }
{
    for unit in units {
        push_unit(line, *unit)?;
    }
    Ok(())
}

fn push_unit(line: &mut Vec<u8>, unit: u16) -> Result<(), AllocError>
    ensures { OnOk result (line.new.items ≡ line.old.items ++ quoted_unit unit) }
{
    if is_plain(unit) {
        line.push(unit as u8)?;
        Ok(())
    } else if unit == 34 || unit == 92 {
        line.extend_from_slice(&[b'\\', unit as u8])
    } else {
        line.extend_from_slice(&escaped(unit))
    }
}

/// Whether a unit stands for itself between quotes.
fn is_plain(unit: u16) -> bool
    ensures { result ≡ is_plain unit }
{
    32 <= unit && unit <= 126 && unit != 34 && unit != 92
}

/// The escape of a unit.
fn escaped(unit: u16) -> [u8; 6]
    ensures { result ≡ escaped unit }
{
    let first = hex_digit(unit / 4096 % 16);
    let second = hex_digit(unit / 256 % 16);
    let third = hex_digit(unit / 16 % 16);
    let last = hex_digit(unit % 16);
    [b'\\', b'u', first, second, third, last]
}

fn hex_digit(digit: u16) -> u8
    requires { digit < 16 }
    ensures { result ≡ hex_digit digit }
{
    if digit < 10 {
        b'0' + digit as u8
    } else {
        b'a' + (digit as u8 - 10)
    }
}
