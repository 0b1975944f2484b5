//! Source maps (Source Map Revision 3): which place of a source stands behind a place of a script.
//! `docs/SOURCE_MAP.md` has the format and its faults.
#![tactic(auto)]

mod digits;
mod document;
mod fault;
mod fields;
mod find;
mod line;
mod map;
mod print;
mod reading;
mod writing;

pub use document::read_map;
pub use fault::MapFault;
pub use line::{HEAD, map_of_script, map_text};
pub use map::{Map, Segment, Target, Text};
pub use print::write_map;
