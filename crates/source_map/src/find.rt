//! Which place of a source stands behind a place of the script.
ghost use Rattle.std.specs.Prelude.{◌≡◌, ◌↔◌, IsTrue};
ghost use Rattle.std.specs.Option.{option_copied};
ghost use Rattle.source_map.specs.Maps.{IsBefore, AreOrdered, target_at};

use crate::map::{Map, Target};
use es_text::Place;

/// Whether one place stands before another.
fn is_before(a: Place, b: Place) -> bool
    ensures { IsTrue result ↔ IsBefore a b }
{
    a.line < b.line || a.line == b.line && a.column < b.column
}

impl Map {
    /// The target of the segment that begins exactly at a place of the script.
    /// It takes no memory, and time in the logarithm of the number of segments.
    pub fn find(&self, generated: Place) -> Option<&Target>
        requires { AreOrdered self.now.segments }
        ensures { option_copied result ≡ target_at self.now.segments generated }
    {
        let segments = self.segments.as_slice();
        let mut low = 0;
        let mut high = segments.len();
        while low < high {
            let middle = low + (high - low) / 2;
            let segment = &segments[middle];
            if is_before(segment.generated, generated) {
                low = middle + 1;
            } else if is_before(generated, segment.generated) {
                high = middle;
            } else {
                return segment.target.as_ref();
            }
        }
        None
    }
}
