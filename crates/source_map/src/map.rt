ghost use Rattle.std.specs.Prelude.{◌≡◌, IfOk, string_bytes};

use es_text::Place;
use sqlite_items::Items;
use std::alloc::{AllocError, Global};
use std::marker::Model;

/// A text of a map, the path of a source or a name. Contracts see the list of its UTF-8 bytes.
#[derive(Debug, Drop)]
pub struct Text {
    text: String,
}

impl Model for Text {
    ghost use Rattle.std.specs.Prelude.{ℕ, List, string_bytes};
    ghost use Rattle.std.specs.Coded.{coded_ℕ, coded_list};

    ghost Value = { List ℕ };

    ghost coded = { coded_list coded_ℕ };

    ghost view = { λ t. string_bytes t.text };
}

impl Text {
    /// A copy of the text.
    pub fn of(alloc: Global, text: &str) -> Result<Text, AllocError>
        ensures { IfOk result (λ t. t ≡ text.now) }
    {
        let text = String::from_str(alloc, text)?;
        Ok(Text { text })
    }

    /// The text itself, without memory.
    pub fn of_string(text: String) -> Text
        ensures { result ≡ string_bytes text }
    {
        Text { text }
    }

    pub fn as_str(&self) -> &str
        ensures { result.now ≡ self.now }
    {
        self.text.as_str()
    }
}

/// A source map. Its segments stand in the order of their places in the script, no two at one place, and
/// their indices are within `sources` and `names`. No number but a generated line is above 2147483647.
#[derive(Debug, Drop)]
pub struct Map {
    pub sources: Items<Text>,
    pub names: Items<Text>,
    pub segments: Items<Segment>,
}

/// From `generated` on, up to the next segment, the script has what stands at `target` in a source, if anything.
#[derive(Clone, Copy, Debug, PartialEq, Eq)]
pub struct Segment {
    pub generated: Place,
    pub target: Option<Target>,
}

/// A place of a source, and the name that stands there, by their numbers in the map's lists.
#[derive(Clone, Copy, Debug, PartialEq, Eq)]
pub struct Target {
    pub source: u32,
    pub place: Place,
    pub name: Option<u32>,
}
