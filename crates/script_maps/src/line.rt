//! The map, and its line.

ghost use Rattle.std.specs.Prelude.{◌≡◌, ◌++◌, [], ◌∷◌, IfOk, OnOk, Ok, Some};
ghost use Rattle.source_map.specs.Document.{map_of};
ghost use Rattle.source_map.specs.Line.{line_of};
ghost use Rattle.source_map.specs.Maps.{IsMap};
ghost use Rattle.script_maps.specs.Mapped.{IsMapOf, IsMapped};

use crate::segments::{marks_apart, segments_of};
use crate::sources::sources_of;
use base64::engine::general_purpose::STANDARD;
use es5_printer::Mark;
use es6_ast::LoadedModule;
use source_map::{HEAD, Map, write_map};
use sqlite_items::Items;
use std::alloc::{AllocError, Global};

/// The map of a script whose calls stand at these marks: the paths of its modules, and for each mark a segment that leads to the
/// place of its site. A mark whose site is no place of a module has a segment that leads nowhere.
#[tactic(auto, using(crate::proofs::Valid::is_map))]
pub fn map_of_marks(
    alloc: Global,
    modules: &[LoadedModule],
    marks: &[Mark],
) -> Result<Map, AllocError>
    ensures exact { IfOk result (λ map. IsMapOf modules.now marks.now map) }
    ensures valid { IfOk result IsMap }
{
    let kept = marks_apart(alloc, marks)?;
    let sources = sources_of(alloc, modules)?;
    let segments = segments_of(alloc, modules, kept.as_slice())?;
    let names = Items::new(alloc);
    Ok(Map {
        sources,
        names,
        segments,
    })
}

/// The line of a map's text, which ends the script.
fn push_line(alloc: Global, script: &mut Vec<u8>, text: &[u8]) -> Result<(), AllocError>
    ensures { OnOk result (script.new.items ≡ script.old.items ++ line_of text.now ++ 10 ∷ []) }
{
    script.extend_from_slice(HEAD)?;
    let encoded = STANDARD.encode(alloc, text)?;
    script.extend_from_slice(encoded.as_bytes())?;
    script.push(b'\n')?;
    Ok(())
}

/// The script with the line of its map behind it.
pub fn with_map(
    alloc: Global,
    mut script: Vec<u8>,
    modules: &[LoadedModule],
    marks: &[Mark],
) -> Result<Vec<u8>, AllocError>
    ensures { IfOk result (λ bytes. IsMapped modules.now marks.now script.items bytes.items) }
{
    let map = map_of_marks(alloc, modules, marks)?;
    let text = write_map(alloc, &map)?;
    push_line(alloc, &mut script, text.as_slice())?;
    Ok(script)
}
