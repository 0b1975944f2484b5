//! From each place of a web to those next to it, until all are there.

ghost use Rattle.std.specs.Prelude.{◌≡◌, ◌<◌, ℕ, List, IfOk, OnOk, length, map, slice_get, Some};
ghost use Rattle.std.specs.List.{IsDistinct};
ghost use Rattle.module_endings.specs.declared.place.Place.{Place};
ghost use Rattle.module_endings.specs.declared.summary.Summary.{Summary};
ghost use Rattle.module_endings.specs.Ends.{first_source, module_nexts, nexts, nexts_in};
ghost use Rattle.module_endings.specs.Indexes.{Indexes};
ghost use Rattle.module_endings.specs.Places.{at_place, same_place};
ghost use Rattle.module_endings.specs.Webs.{AreEntries, Covered, CoversAt, IsSized, IsTrue, Linked};

use crate::ends::is_end;
use crate::place::{Home, Place};
use crate::sources::Sources;
use crate::summary::Summary;
use crate::web::Web;
use shared_text::Name;
use std::alloc::{AllocError, Global};

/// A module with its sources.
#[derive(Drop)]
pub(crate) struct Entry<'a> {
    pub(crate) summary: &'a Summary,
    pub(crate) sources: Sources<'a>,
}

pub(crate) fn entries_of<'a>(
    alloc: Global,
    modules: &'a [Summary],
) -> Result<Vec<Entry<'a>>, AllocError>
    ensures { IfOk result (λ entries. AreEntries modules.now entries.items) }
{
    let mut entries = Vec::new(alloc);
    for summary in modules {
        let sources = Sources::of(alloc, summary.exports.as_slice())?;
        entries.push(Entry { summary, sources })?;
    }
    Ok(entries)
}

/// Adds all that is reached from the places of a web.
pub(crate) fn cover_all(
    alloc: Global,
    web: &mut Web,
    entries: &[Entry],
    hosts: &[Name],
) -> Result<(), AllocError>
    requires { IsSized web.old }
    ensures covered { OnOk result ((modules : List Summary) → AreEntries modules entries.now → IsTrue modules hosts.now web.old → Covered modules hosts.now web.old web.new) }
    ensures distinct { OnOk result (IsDistinct same_place web.new.places.keys) }
{
    let mut at = 0;
    while at < web.places.len() {
        cover(alloc, web, entries, hosts, at)?;
        at += 1;
    }
    Ok(())
}

/// Adds what stands at one place.
fn cover(
    alloc: Global,
    web: &mut Web,
    entries: &[Entry],
    hosts: &[Name],
    at: usize,
) -> Result<(), AllocError>
    requires size { IsSized web.old }
    requires within { at < length web.old.places.keys }
    ensures size { OnOk result (IsSized web.new) }
    ensures covers { OnOk result ((modules : List Summary) (x : Place) → AreEntries modules entries.now → slice_get web.old.places.keys at ≡ Some x → CoversAt modules hosts.now at x web.old web.new) }
{
    let Some(place) = web.places.get_index(at) else {
        return Ok(());
    };
    let place = place.copy(alloc)?;
    if is_end(hosts, &place) {
        web.ends.push(at)?;
    }
    cover_nexts(alloc, web, entries, at, &place)?;
    Ok(())
}

/// Adds the places to which one goes on from this one.
fn cover_nexts(
    alloc: Global,
    web: &mut Web,
    entries: &[Entry],
    at: usize,
    place: &Place,
) -> Result<(), AllocError>
    requires { IsSized web.old }
    ensures size { OnOk result (IsSized web.new) }
    ensures linked { OnOk result ((modules : List Summary) → AreEntries modules entries.now → Linked at (nexts modules place.now) web.old web.new) }
{
    match place.home {
        Home::Module(number) => cover_module(alloc, web, entries, at, number, &place.name),
        Home::Nowhere | Home::OfHosts | Home::Binding(_) => Ok(()),
    }
}

fn cover_module(
    alloc: Global,
    web: &mut Web,
    entries: &[Entry],
    at: usize,
    number: u32,
    name: &Name,
) -> Result<(), AllocError>
    requires { IsSized web.old }
    ensures size { OnOk result (IsSized web.new) }
    ensures linked { OnOk result ((modules : List Summary) → AreEntries modules entries.now → Linked at (nexts_in (slice_get modules number) name.now) web.old web.new) }
{
    match entries.get(number as usize) {
        None => Ok(()),
        Some(entry) => cover_entry(alloc, web, entry, at, name),
    }
}

/// Adds the source of a name that a module exports, or where its stars are for another name than `default`.
fn cover_entry(
    alloc: Global,
    web: &mut Web,
    entry: &Entry,
    at: usize,
    name: &Name,
) -> Result<(), AllocError>
    requires { IsSized web.old }
    ensures size { OnOk result (IsSized web.new) }
    ensures linked { OnOk result (Indexes entry.now.sources entry.now.summary.now.exports → Linked at (module_nexts entry.now.summary.now name.now (first_source entry.now.summary.now.exports name.now)) web.old web.new) }
{
    match entry.sources.first(name.bytes()) {
        Some(source) => web.link(at, source.copy(alloc)?),
        None => {
            if name.is(b"default") {
                return Ok(());
            }
            cover_stars(alloc, web, entry.summary.stars.as_slice(), at, name)?;
            Ok(())
        }
    }
}

fn cover_stars(
    alloc: Global,
    web: &mut Web,
    stars: &[Home],
    at: usize,
    name: &Name,
) -> Result<(), AllocError>
    requires { IsSized web.old }
    ensures { OnOk result (Linked at (map (λ home. at_place home name.now) stars.now) web.old web.new) }
{
    for home in stars {
        let place = Place {
            home: *home,
            name: name.copy(alloc)?,
        };
        web.link(at, place)?;
    }
    Ok(())
}
