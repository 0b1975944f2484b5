//! From the text of a map to a map.
ghost use Rattle.std.specs.Prelude.{◌≡◌, Some, IfOk, option_and_then, option_map};
ghost use Rattle.serde_json.specs.Find.{get, as_array, as_str};
ghost use Rattle.serde_json.specs.View.{view, items_view};
ghost use Rattle.source_map.specs.Maps.{IsMap};
ghost use Rattle.source_map.specs.Outcome.{Gives};
ghost use Rattle.source_map.specs.Document.{texts, texts_at, version_of, is_number, map_of_data, map_of, or_bad_json};

use crate::fault::MapFault;
use crate::map::{Map, Text};
use crate::reading::read_segments;
use serde_json::Value;
use sqlite_items::Items;
use std::alloc::Global;

/// The texts of a list that holds nothing else.
fn texts_of(alloc: Global, list: &[Value]) -> Result<Items<Text>, MapFault>
    ensures { Gives result (or_bad_json (texts (items_view list.now))) }
{
    let mut texts = Items::new(alloc);
    for value in list {
        let Some(text) = value.as_str() else {
            return Err(MapFault::BadJson);
        };
        texts.push(Text::of(alloc, text)?)?;
    }
    Ok(texts)
}

/// The texts of the list that stands at a key.
fn texts_under(alloc: Global, document: &Value, key: &str) -> Result<Items<Text>, MapFault>
    ensures { Gives result (or_bad_json (texts_at key.now (view document.now))) }
{
    match document.get(key).and_then(Value::as_array) {
        Some(list) => texts_of(alloc, list.as_slice()),
        None => Err(MapFault::BadJson),
    }
}

#[tactic(auto, unfolding(crate::specs::Document::version_of))]
fn is_version_3(document: &Value) -> bool
    ensures { result ≡ is_number 3 (version_of (view document.now)) }
{
    document.get("version").and_then(Value::as_u64) == Some(3)
}

/// The map that a JSON value is.
#[tactic(auto, unfolding(crate::specs::Document::map_of_data))]
fn map_in(alloc: Global, document: &Value) -> Result<Map, MapFault>
    ensures { Gives result (map_of_data (view document.now)) }
{
    let sources = texts_under(alloc, document, "sources")?;
    let names = texts_under(alloc, document, "names")?;
    let Some(mappings) = document.get("mappings").and_then(Value::as_str) else {
        return Err(MapFault::BadJson);
    };
    if !is_version_3(document) {
        return Err(MapFault::BadVersion);
    }
    let segments = read_segments(alloc, sources.len(), names.len(), mappings.as_bytes())?;
    Ok(Map {
        sources,
        names,
        segments,
    })
}

/// The map that a text is. `docs/SOURCE_MAP.md` has the faults, of which the first counts.
pub fn read_map(alloc: Global, text: &[u8]) -> Result<Map, MapFault>
    ensures exact { Gives result (map_of text.now) }
    ensures valid { IfOk result IsMap }
{
    match Value::from_slice(alloc, text) {
        Ok(document) => map_in(alloc, &document),
        Err(error) if error.is_memory() => Err(MapFault::OutOfMemory),
        Err(_) => Err(MapFault::BadJson),
    }
}
