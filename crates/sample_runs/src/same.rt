//! Events of a script and of modules that are the same, up to the map.

ghost use Rattle.std.specs.Prelude.{◌≡◌, ◌↔◌, IsTrue, option_copied};
ghost use Rattle.source_map.specs.Maps.{AreOrdered, target_at};
ghost use Rattle.sample_runs.specs.Same.{AreEqual, AreSameEvents, IsSameEvent, LeadsTo};
ghost use Rattle.run_parts.specs.Places.{place_in};

use es_outside::{Event, Prim, Site};
use es_text::{Lines, Place};
use program_runs::Places;
use run_parts::place_in;
use source_map::{Map, Target};

fn is_same_primitive(a: &Prim, b: &Prim) -> bool
    ensures { IsTrue result ↔ (a.now ≡ b.now) }
{
    match (a, b) {
        (Prim::Undefined, Prim::Undefined) => true,
        (Prim::Null, Prim::Null) => true,
        (Prim::Bool(x), Prim::Bool(y)) => x == y,
        (Prim::Number(x), Prim::Number(y)) => x == y,
        (Prim::Text(x), Prim::Text(y)) => x.units() == y.units(),
        _ => false,
    }
}

fn are_same_primitives(a: &[Prim], b: &[Prim]) -> bool
    ensures { IsTrue result ↔ AreEqual a.now b.now }
{
    if a.len() != b.len() {
        return false;
    }
    for (at, one) in a.iter().enumerate() {
        if !is_same_primitive(one, &b[at]) {
            return false;
        }
    }
    true
}

/// Whether a target is this place of this module.
fn leads_to(target: Option<&Target>, module: u32, place: Place) -> bool
    ensures { IsTrue result ↔ LeadsTo (option_copied target.entry) «module» place }
{
    match target {
        None => false,
        Some(target) => target.source == module && target.place == place,
    }
}

/// Whether the map takes the place of a site of the script to that of a site of the modules.
fn is_mapped<P: Places>(map: &Map, lines: &Lines, places: &P, script: Site, source: Site) -> bool
    requires { AreOrdered map.now.segments }
    ensures { IsTrue result ↔ LeadsTo (target_at map.now.segments (place_in lines.now script.at)) source.«module» ((P.sites places.now).place source) }
{
    leads_to(
        map.find(place_in(lines, script.at)),
        source.module,
        places.place(source),
    )
}

#[tactic(auto, using(crate::proofs::Alike::equal_lists, crate::proofs::Alike::lists_equal))]
fn is_same_event<P: Places>(
    map: &Map,
    lines: &Lines,
    places: &P,
    script: &Event,
    source: &Event,
) -> bool
    requires { AreOrdered map.now.segments }
    ensures { IsTrue result ↔ IsSameEvent map.now.segments lines.now (P.sites places.now) script.now source.now }
{
    if script.host != source.host {
        return false;
    }
    if !are_same_primitives(script.args.list(), source.args.list()) {
        return false;
    }
    is_mapped(map, lines, places, script.site, source.site)
}

/// Whether a script with these lines and this map had the same events as the modules.
pub fn same_events<P: Places>(
    map: &Map,
    lines: &Lines,
    places: &P,
    script: &[Event],
    source: &[Event],
) -> bool
    requires { AreOrdered map.now.segments }
    ensures { IsTrue result ↔ AreSameEvents map.now.segments lines.now (P.sites places.now) script.now source.now }
{
    if script.len() != source.len() {
        return false;
    }
    for (at, event) in script.iter().enumerate() {
        if !is_same_event(map, lines, places, event, &source[at]) {
            return false;
        }
    }
    true
}
