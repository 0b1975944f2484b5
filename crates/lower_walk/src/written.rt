//! Property names as they are written (ECMA-262, 6th edition, 12.2.6).

ghost use Rattle.std.specs.Fmt.{decimal};
ghost use Rattle.std.specs.Prelude.{◌≡◌, IfOk};
ghost use Rattle.lower_walk.specs.Keys.{key_in, units_in};
ghost use Rattle.lowering_rules.specs.Patterns.{iterator_name};
ghost use Rattle.module_lowering.specs.Expressions.{whole};
ghost use Rattle.module_lowering.specs.Lowered.{key_lowered};

use crate::lower_names::units_of;
use core_ast::Key as CoreKey;
use es6_ast::Key;
use shared_text::{Name, Units};
use std::alloc::{AllocError, Global};

/// The value of a literal, which is no negative one.
pub fn whole(value: i64) -> u64
    ensures { result ≡ whole value }
{
    if value < 0 { 0 } else { value as u64 }
}

/// The text of ASCII characters.
fn text_of(alloc: Global, characters: &[u8]) -> Result<Units, AllocError>
    ensures { IfOk result (λ text. text ≡ characters.now) }
{
    let mut units = Vec::new(alloc);
    for character in characters {
        units.push(*character as u16)?;
    }
    Ok(Units::of_units(units))
}

/// An integer in decimal digits.
fn digits(alloc: Global, value: u64) -> Result<Units, AllocError>
    ensures { IfOk result (λ text. text ≡ decimal value) }
{
    let digits = format!(in alloc; "{value}")?;
    text_of(alloc, digits.as_bytes())
}

/// The text that stands for `[Symbol.iterator]` as a key.
pub fn iterator_text(alloc: Global) -> Result<Units, AllocError>
    ensures { IfOk result (λ text. text ≡ iterator_name) }
{
    let units: &[u16] = &[64, 64, 105, 116, 101, 114, 97, 116, 111, 114];
    Ok(Units::of_units(Vec::from_slice(alloc, units)?))
}

/// The key of a property name as it is written; of one in brackets an empty word.
#[tactic(auto, unfolding(module_lowering::specs::Lowered::key_lowered))]
pub fn written_key(alloc: Global, key: &Key) -> Result<CoreKey, AllocError>
    ensures { IfOk result (λ k. k ≡ key_in (key_lowered key.now)) }
{
    match key {
        Key::WordKey { name, .. } => Ok(CoreKey::WordKey(name.copy(alloc)?)),
        Key::TextKey { units, .. } => Ok(CoreKey::TextKey(units.copy(alloc)?)),
        Key::IntegerKey { value, .. } => Ok(CoreKey::IntegerKey(whole(*value))),
        Key::ComputedKey { .. } => Ok(CoreKey::WordKey(Name::of_bytes(alloc, &[])?)),
    }
}

/// The text that a property name as it is written names; of one in brackets no text.
#[tactic(auto, unfolding(module_lowering::specs::Lowered::key_lowered))]
pub fn written_text(alloc: Global, key: &Key) -> Result<Units, AllocError>
    ensures { IfOk result (λ text. text ≡ units_in (key_lowered key.now)) }
{
    match key {
        Key::WordKey { name, .. } => units_of(alloc, name.bytes()),
        Key::TextKey { units, .. } => units.copy(alloc),
        Key::IntegerKey { value, .. } => digits(alloc, whole(*value)),
        Key::ComputedKey { .. } => Ok(Units::of_units(Vec::new(alloc))),
    }
}
