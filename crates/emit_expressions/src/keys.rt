//! Keys of properties (ECMA-262, 5.1 edition, 11.1.5, 11.2.1).

ghost use Rattle.std.specs.Prelude.{◌≡◌, IfOk};
ghost use Rattle.core_ast.specs.declared.parts.Key.TheVariants.{WordKey};
ghost use Rattle.emission_rules.specs.Nodes.{is_ascii, key_name, key_value, keyed, plain, word_units};

use crate::leaves::{integer, nowhere, text, word_text};
use core_ast::Key;
use es_text::units_of;
use es5_ast::{Expr5, Key5, Link5, PlacedKey5, Property5};
use es5_nodes::parts;
use shared_text::{Name, Units};
use sqlite_items::Boxed;
use std::alloc::{AllocError, Global};

/// Whether a word is in ASCII, so that it may stand in a script as it is.
fn is_ascii(word: &[u8]) -> bool
    ensures { result ≡ is_ascii word.now }
{
    word.iter().all(|byte| *byte < 128)
}

/// The 16-bit units of a word, which is UTF-8 as all words of trees are.
fn word_units(alloc: Global, word: &[u8]) -> Result<Units, AllocError>
    ensures { IfOk result (λ us. us ≡ word_units word.now) }
{
    if u32::try_from(word.len()).is_err() {
        return Err(AllocError);
    }
    match units_of(alloc, word) {
        Ok(units) => Ok(Units::of_units(units)),
        Err(_) => Err(AllocError),
    }
}

/// The access to the property of a word.
#[tactic(auto, unfolding(emission_rules::specs::Nodes::keyed))]
fn keyed_word(alloc: Global, word: &Name) -> Result<Boxed<Link5>, AllocError>
    ensures { IfOk result (λ x. x ≡ keyed (WordKey word.now)) }
{
    if is_ascii(word.bytes()) {
        return parts::member(alloc, nowhere(), word.copy(alloc)?);
    }
    let units = word_units(alloc, word.bytes())?;
    parts::index(alloc, nowhere(), text(alloc, units.units())?)
}

/// The access to the property with this key.
#[tactic(auto, unfolding(emission_rules::specs::Nodes::keyed))]
pub(crate) fn keyed(alloc: Global, key: &Key) -> Result<Boxed<Link5>, AllocError>
    ensures { IfOk result (λ x. x ≡ keyed key.now) }
{
    match key {
        Key::WordKey(word) => keyed_word(alloc, word),
        Key::TextKey(units) => parts::index(alloc, nowhere(), text(alloc, units.units())?),
        Key::IntegerKey(value) => parts::index(alloc, nowhere(), integer(alloc, *value)?),
    }
}

/// A word as a value.
#[tactic(auto, unfolding(emission_rules::specs::Nodes::key_value))]
fn word_value(alloc: Global, word: &[u8]) -> Result<Boxed<Expr5>, AllocError>
    ensures { IfOk result (λ x. x ≡ key_value (WordKey word.now)) }
{
    if is_ascii(word) {
        return word_text(alloc, word);
    }
    let units = word_units(alloc, word)?;
    text(alloc, units.units())
}

/// The key as a value.
#[tactic(auto, unfolding(emission_rules::specs::Nodes::key_value))]
pub(crate) fn key_value(alloc: Global, key: &Key) -> Result<Boxed<Expr5>, AllocError>
    ensures { IfOk result (λ x. x ≡ key_value key.now) }
{
    match key {
        Key::WordKey(word) => word_value(alloc, word.bytes()),
        Key::TextKey(units) => text(alloc, units.units()),
        Key::IntegerKey(value) => integer(alloc, *value),
    }
}

/// A word as the name of a property in a literal.
#[tactic(auto, unfolding(emission_rules::specs::Nodes::key_name))]
fn word_name(alloc: Global, word: &Name) -> Result<Key5, AllocError>
    ensures { IfOk result (λ x. x ≡ key_name (WordKey word.now)) }
{
    if is_ascii(word.bytes()) {
        return Ok(Key5::WordKey(word.copy(alloc)?));
    }
    Ok(Key5::TextKey(word_units(alloc, word.bytes())?))
}

/// The key as the name of a property in a literal.
#[tactic(auto, unfolding(emission_rules::specs::Nodes::key_name))]
pub(crate) fn key_name(alloc: Global, key: &Key) -> Result<Key5, AllocError>
    ensures { IfOk result (λ x. x ≡ key_name key.now) }
{
    match key {
        Key::WordKey(word) => word_name(alloc, word),
        Key::TextKey(units) => Ok(Key5::TextKey(units.copy(alloc)?)),
        Key::IntegerKey(value) => Ok(Key5::IntegerKey(*value)),
    }
}

/// A property of an object literal.
pub fn plain(alloc: Global, key: Key5, value: Boxed<Expr5>) -> Result<Boxed<Property5>, AllocError>
    ensures { IfOk result (λ x. x ≡ plain key value) }
{
    let span = nowhere();
    parts::property(alloc, span, PlacedKey5 { span, key }, value)
}
