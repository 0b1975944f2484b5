//! Segments, a mark each.

ghost use Rattle.std.specs.Prelude.{◌≡◌, ◌↔◌, IfOk, IsTrue, None, slice_get};
ghost use Rattle.source_map.specs.Segments.{limit};
ghost use Rattle.script_maps.specs.Mapped.{apart, AreSegmentsOf, IsSegmentOf, IsSmall, IsTargetIn, IsTargetOf, is_behind, stands_apart};

use es_outside::Site;
use es_text::{Lines, Place};
use es5_printer::Mark;
use es6_ast::LoadedModule;
use source_map::{Segment, Target};
use sqlite_items::Items;
use std::alloc::{AllocError, Global};

/// No number of a map is above.
const LIMIT: u64 = 0x7fff_ffff;

/// Whether the place stands behind the last one.
fn is_behind(last: Option<Place>, place: Place) -> bool
    ensures { result ≡ is_behind last place }
{
    match last {
        None => true,
        Some(last) => {
            last.line < place.line || last.line == place.line && last.column < place.column
        }
    }
}

fn stands_apart(last: Option<Place>, place: Place) -> bool
    ensures { result ≡ stands_apart last place }
{
    is_behind(last, place) && place.column <= LIMIT
}

/// The marks that stand behind the one before them, and not too far right.
#[tactic(auto, unfolding(crate::specs::Mapped::apart))]
pub fn marks_apart(alloc: Global, marks: &[Mark]) -> Result<Items<Mark>, AllocError>
    ensures { IfOk result (λ ms. ms ≡ apart None marks.now) }
{
    let mut kept = Items::new(alloc);
    let mut last = None;
    for mark in marks {
        if stands_apart(last, mark.generated) {
            kept.push(*mark)?;
            last = Some(mark.generated);
        }
    }
    Ok(kept)
}

/// Whether a map can have these numbers.
fn is_small(source: u32, place: Place) -> bool
    ensures { IsTrue result ↔ IsSmall source place }
{
    u64::from(source) <= LIMIT && place.line <= LIMIT && place.column <= LIMIT
}

/// The place of an offset in the text of the module of a number.
#[tactic(auto, using(crate::proofs::Targets::none_small))]
fn target_in(lines: &Lines, source: u32, at: u32) -> Option<Target>
    ensures { IsTargetIn lines.now source at result }
{
    let place = lines.place(at)?;
    if !is_small(source, place) {
        return None;
    }
    Some(Target {
        source,
        place,
        name: None,
    })
}

fn target_of(modules: &[LoadedModule], site: Site) -> Option<Target>
    ensures { IsTargetOf (slice_get modules.now site.module) site result }
{
    match modules.get(site.module as usize) {
        None => None,
        Some(module) => target_in(&module.lines, site.module, site.at),
    }
}

fn segment_of(modules: &[LoadedModule], mark: &Mark) -> Segment
    ensures { IsSegmentOf modules.now mark.now result }
{
    Segment {
        generated: mark.generated,
        target: target_of(modules, mark.site),
    }
}

/// A segment for each mark.
#[tactic(auto, using(crate::proofs::Zips::zip_more))]
pub fn segments_of(
    alloc: Global,
    modules: &[LoadedModule],
    marks: &[Mark],
) -> Result<Items<Segment>, AllocError>
    ensures { IfOk result (λ ss. AreSegmentsOf modules.now marks.now ss) }
{
    let mut segments = Items::new(alloc);
    for mark in marks {
        let segment = segment_of(modules, mark);
        segments.push(segment)?;
    }
    Ok(segments)
}
