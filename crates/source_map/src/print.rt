//! From a map to its text.
ghost use Rattle.std.specs.Prelude.{◌≡◌, ◌++◌, ℕ, List, Ok, IfOk, OnOk, length, string_bytes, true};
ghost use Rattle.json.specs.Print.{quoted};
ghost use Rattle.serde_json.specs.Written.{comma_if};
ghost use Rattle.source_map.specs.Document.{map_of};
ghost use Rattle.source_map.specs.Maps.{IsMap};
ghost use Rattle.source_map.specs.Segments.{segments_of};
ghost use Rattle.source_map.specs.Written.{mappings_text, no_values, texts_text, list_text, document_text};

use crate::map::{Map, Text};
use crate::writing::write_segments;
use serde_json::Value;
use std::alloc::{AllocError, Global};

fn push_quoted(alloc: Global, out: &mut String, text: &str) -> Result<(), AllocError>
    ensures { OnOk result (string_bytes out.new ≡ string_bytes out.old ++ quoted text.now) }
{
    let value = Value::try_from_str(alloc, text)?;
    let quoted = value.to_string(alloc)?;
    out.push_str(quoted.as_str())?;
    Ok(())
}

fn push_comma_if(out: &mut String, later: bool) -> Result<(), AllocError>
    ensures { OnOk result (string_bytes out.new ≡ string_bytes out.old ++ comma_if later) }
{
    if later {
        out.push(',')?;
    }
    Ok(())
}

fn push_texts(alloc: Global, out: &mut String, texts: &[Text]) -> Result<(), AllocError>
    ensures { OnOk result (string_bytes out.new ≡ string_bytes out.old ++ list_text texts.now) }
{
    let mut later = false;
    for text in texts {
        push_comma_if(out, later)?;
        push_quoted(alloc, out, text.as_str())?;
        later = true;
    }
    Ok(())
}

/// The text of a map, around its `mappings`.
fn document(alloc: Global, map: &Map, mappings: &str) -> Result<String, AllocError>
    ensures { IfOk result (λ t. string_bytes t ≡ document_text map.now.sources map.now.names mappings.now) }
{
    let mut out = String::new(alloc);
    out.push_str("{\"version\":3,\"sources\":[")?;
    push_texts(alloc, &mut out, map.sources.as_slice())?;
    out.push_str("],\"names\":[")?;
    push_texts(alloc, &mut out, map.names.as_slice())?;
    out.push_str("],\"mappings\":")?;
    push_quoted(alloc, &mut out, mappings)?;
    out.push_str("}")?;
    Ok(out)
}

/// The text of a map: one line of JSON without spaces.
pub fn write_map(alloc: Global, map: &Map) -> Result<Vec<u8>, AllocError>
    requires { IsMap map.now }
    // The members stand in this order, and `mappings` has exactly the map's segments.
    ensures layout { IfOk result (λ text. (mappings : List ℕ)
        × (text.items ≡ document_text map.now.sources map.now.names mappings)
        × (segments_of (length map.now.sources) (length map.now.names) mappings ≡ Ok map.now.segments)) }
    // Reading the text gives the map back.
    ensures reads_back { IfOk result (λ text. map_of text.items ≡ Ok map.now) }
{
    let mappings = write_segments(alloc, map.segments.as_slice())?;
    let text = document(alloc, map, mappings.as_str())?;
    Ok(text.into_bytes())
}
