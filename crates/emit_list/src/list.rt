//! The list of scripts.

ghost use Rattle.std.specs.Prelude.{◌≡◌, ◌+◌, ◌++◌, IfOk, OnOk};
ghost use Rattle.emission_rules.specs.Functions.{functions_emitted, scene_by};
ghost use Rattle.emit_expressions.specs.Giving.{Gives};
ghost use Rattle.emit_list.specs.Scripts.{begun, part_scripts, script_of, scripts, scripts_in, start};

use crate::loader::{loader, strict};
use crate::names::{called_names, table_name};
use crate::parts::{part_body, part_names, part_script, slot};
use core_ast::{Core, CorePart};
use emission_rules::Scene;
use emit_expressions::called;
use emit_names::host_list;
use emit5::{expression, parameters, scene_behind};
use es_outside::HostNames;
use es5_ast::{Script, Stat5};
use shared_text::Name;
use sqlite_items::Items;
use std::alloc::{AllocError, Global};

/// The script of a part, in the scene behind those before it.
fn one_script(
    alloc: Global,
    hosts: &[Name],
    table: &[u8],
    names: &[Name],
    number: u64,
    part: &CorePart,
    scene: &mut Scene,
) -> Result<Script, AllocError>
    ensures { Gives result scene.new
        (script_of hosts.now table.now names.now number part.now scene.old) }
{
    let declared = part_names(alloc, table, names, scene, part)?;
    let parameters = parameters(alloc, scene.hosts.as_slice())?;
    let body = part_body(alloc, declared, part, scene)?;
    part_script(alloc, hosts, table, number, parameters, body)
}

/// The scripts of the parts.
fn push_parts(
    alloc: Global,
    hosts: &[Name],
    table: &[u8],
    names: &[Name],
    parts: &[CorePart],
    scene: &mut Scene,
    out: &mut Items<Script>,
) -> Result<(), AllocError>
    ensures { OnOk result (out.new
        ≡ out.old ++ part_scripts hosts.now table.now names.now 0 parts.now scene.old) }
{
    let mut number: u64 = 0;
    for part in parts {
        out.push(one_script(alloc, hosts, table, names, number, part, scene)?)?;
        number = next(number)?;
    }
    Ok(())
}

fn next(number: u64) -> Result<u64, AllocError>
    ensures { IfOk result (λ n. n ≡ number + 1) }
{
    match number.checked_add(1) {
        Some(next) => Ok(next),
        None => Err(AllocError),
    }
}

/// What is left to do of the part with this number is done.
fn begun(alloc: Global, table: &[u8], number: u32) -> Result<Stat5, AllocError>
    ensures { IfOk result (λ s. s ≡ begun table.now number) }
{
    let callee = slot(alloc, table, u64::from(number))?;
    Ok(expression(called(alloc, callee, Items::new(alloc), None)?))
}

/// The script that begins the evaluation.
fn start(alloc: Global, table: &[u8], order: &[u32]) -> Result<Script, AllocError>
    ensures { IfOk result (λ script. script ≡ start table.now order.now) }
{
    let mut body = Items::new(alloc);
    for number in order {
        body.push(begun(alloc, table, *number)?)?;
    }
    strict(alloc, body)
}

fn scripts_in(
    alloc: Global,
    core: &Core,
    hosts: &[Name],
    helpers: Items<Stat5>,
    table: &[u8],
    names: &[Name],
    scene: &mut Scene,
) -> Result<Items<Script>, AllocError>
    ensures { IfOk result
        (λ ss. ss ≡ scripts_in core.now hosts.now helpers table.now names.now scene.old) }
{
    let parts = core.parts.as_slice();
    let mut all = Items::new(alloc);
    all.push(loader(alloc, table, names, scene, parts, helpers)?)?;
    push_parts(alloc, hosts, table, names, parts, scene, &mut all)?;
    all.push(start(alloc, table, core.order.as_slice())?)?;
    Ok(all)
}

fn scripts_by(
    alloc: Global,
    core: &Core,
    hosts: &[Name],
    helpers: Items<Stat5>,
    table: &[u8],
    names: &[Name],
) -> Result<Items<Script>, AllocError>
    ensures { IfOk result (λ ss. ss
        ≡ scripts_in core.now hosts.now helpers table.now names.now
        (functions_emitted core.now.functions
        (scene_by core.now.fresh.hints hosts.now helpers))) }
{
    let mut scene = scene_behind(alloc, core, hosts, helpers.as_slice())?;
    scripts_in(alloc, core, hosts, helpers, table, names, &mut scene)
}

fn scripts_of(
    alloc: Global,
    core: &Core,
    hosts: &[Name],
    helpers: Items<Stat5>,
) -> Result<Items<Script>, AllocError>
    ensures { IfOk result (λ ss. ss ≡ scripts core.now hosts.now helpers) }
{
    let table = table_name(alloc, hosts, helpers.as_slice())?;
    let names = called_names(alloc, helpers.as_slice())?;
    scripts_by(alloc, core, hosts, helpers, table.bytes(), names.as_slice())
}

/// The scripts of a core, with the statements of its helpers: the loader, one for each part, and the start. Names that several
/// parts mention are to be marked as shared, in each of these, and to hold cells.
pub fn emit_list(
    alloc: Global,
    core: &Core,
    helpers: Items<Stat5>,
    hosts: &HostNames,
) -> Result<Items<Script>, AllocError>
    ensures { IfOk result (λ list. list ≡ scripts core.now hosts.now helpers) }
{
    let hosts = host_list(alloc, hosts)?;
    scripts_of(alloc, core, hosts.as_slice(), helpers)
}
