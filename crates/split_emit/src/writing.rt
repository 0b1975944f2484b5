//! The text of a script, with a map of the one module that it comes from.

ghost use Rattle.std.specs.Prelude.{◌≡◌, true, IfOk};
ghost use Rattle.es5_printable.specs.Printable.{is_printable};
ghost use Rattle.split_emit.specs.Split.{IsScriptAt, IsTextAt, mark_in, marks_at, sources_at};

use crate::scripts::{SplitScript, name_at};
use es_outside::Site;
use es5_ast::Script;
use es5_printable::is_printable;
use es5_printer::{Mark, write5};
use es6_ast::LoadedModule;
use script_maps::with_map;
use sqlite_items::Items;
use std::alloc::{AllocError, Global};

/// The module whose script stands at this place.
fn sources_at(modules: &[LoadedModule], place: usize) -> &[LoadedModule]
    ensures { result.now ≡ sources_at modules.now place }
{
    if place == 0 {
        return &[];
    }
    let count = (place - 1).min(modules.len());
    let (_, rest) = modules.split_at(count);
    let (source, _) = rest.split_at(rest.len().min(1));
    source
}

/// A mark whose site is that of the map's only module, if it stands in the module with this number.
fn mark_in(number: usize, mark: &Mark) -> Mark
    ensures { result ≡ mark_in number mark.now }
{
    let is_there = mark.site.module as usize == number;
    Mark {
        generated: mark.generated,
        site: Site {
            module: if is_there { 0 } else { 1 },
            at: mark.site.at,
        },
    }
}

fn marks_at(alloc: Global, place: usize, marks: &[Mark]) -> Result<Items<Mark>, AllocError>
    ensures { IfOk result (λ ms. ms ≡ marks_at place marks.now) }
{
    let number = place.saturating_sub(1);
    let mut made = Items::new(alloc);
    for mark in marks {
        made.push(mark_in(number, mark))?;
    }
    Ok(made)
}

/// The text of a script with its map.
fn text_with_map(
    alloc: Global,
    modules: &[LoadedModule],
    place: usize,
    script: &Script,
) -> Result<Vec<u8>, AllocError>
    ensures { IfOk result (λ bytes. IsTextAt modules.now place script.now bytes.items) }
{
    let (text, marks) = write5(alloc, script)?;
    let marks = marks_at(alloc, place, marks.as_slice())?;
    with_map(alloc, text, sources_at(modules, place), marks.as_slice())
}

/// The same, if the script is one of the grammar. That each is isn't proved; where one weren't, this would fail as if memory
/// were wanting.
fn written(
    alloc: Global,
    modules: &[LoadedModule],
    place: usize,
    script: &Script,
) -> Result<Vec<u8>, AllocError>
    ensures printable { IfOk result (λ bytes. is_printable script.now ≡ true) }
    ensures written { IfOk result (λ bytes. IsTextAt modules.now place script.now bytes.items) }
{
    if !is_printable(alloc, script)? {
        return Err(AllocError);
    }
    text_with_map(alloc, modules, place, script)
}

/// The script at this place, written and named.
pub(crate) fn script_at(
    alloc: Global,
    modules: &[LoadedModule],
    place: usize,
    script: &Script,
) -> Result<SplitScript, AllocError>
    ensures { IfOk result (λ s. IsScriptAt modules.now place script.now s) }
{
    let name = name_at(alloc, modules.len(), place)?;
    let bytes = written(alloc, modules, place, script)?;
    Ok(SplitScript { name, bytes })
}
