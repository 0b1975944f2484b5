//! The comparison of the two runs.

ghost use Rattle.std.specs.Prelude.{◌≡◌, ◌≤◌, length, IfOk};
ghost use Rattle.graph_runs.specs.Sites.{sites_of};
ghost use Rattle.sample_runs.specs.Comparing.{AfterGraph, AfterScript, AreCompared, ComesOfUnread, IsCompared, IsComparedRead, IsComparedWith, Shows5, left_at};

use crate::comparison::Comparison;
use crate::same::same_events;
use answered_runs::{Answered, run_answered};
use es_outside::{Ending, Event, HostNames, Site};
use es_text::Lines;
use es6_ast::Graph;
use eval5_step::Run5;
use graph_runs::{GraphPlaces, graph_answered};
use module_summaries::Declares;
use program_runs::Places;
use script_lowering::{Sites, core_of_script};
use script_runs::{ReadScript, Unread, script_of};
use shared_text::Name;
use source_map::{MapFault, map_of_script};
use std::alloc::{AllocError, Global};

/// The most steps of either run.
pub(crate) const MOST_STEPS: u64 = 1_099_511_627_776;

/// Compares the run of a linked graph with that of a script, where the program has these hosts.
pub fn compared<D: Declares>(
    alloc: Global,
    graph: &Graph,
    hosts: &HostNames,
    script: &[u8],
) -> Result<Comparison, AllocError>
    requires few { length graph.now.modules ≤ 1024 }
    ensures { IfOk result (IsCompared graph.now hosts.now script.now) }
{
    match script_of(alloc, script) {
        Ok(read) => compared_read::<D>(alloc, graph, hosts, script, &read),
        Err(unread) => unread_compared(unread),
    }
}

/// What comes of bytes that are no script.
fn unread_compared(unread: Unread) -> Result<Comparison, AllocError>
    ensures { IfOk result (ComesOfUnread unread) }
{
    match unread {
        Unread::Refused(fault) => Ok(Comparison::Unread(fault)),
        Unread::OutOfMemory => Err(AllocError),
    }
}

/// The same with the script that was read.
#[tactic(auto, using(crate::proofs::Shown::graph_shown))]
fn compared_read<D: Declares>(
    alloc: Global,
    graph: &Graph,
    hosts: &HostNames,
    script: &[u8],
    read: &ReadScript,
) -> Result<Comparison, AllocError>
    requires few { length graph.now.modules ≤ 1024 }
    ensures { IfOk result (IsComparedRead graph.now hosts.now script.now read.now.script read.now.lines) }
{
    let Answered { events, over } = graph_answered::<D>(alloc, graph, MOST_STEPS)?;
    after_graph(alloc, graph, hosts, script, read, events.as_slice(), over)
}

/// The same where the graph's run had these events, and ended so, if it did.
fn after_graph(
    alloc: Global,
    graph: &Graph,
    hosts: &HostNames,
    script: &[u8],
    read: &ReadScript,
    source: &[Event],
    over: Option<Ending>,
) -> Result<Comparison, AllocError>
    ensures { IfOk result (AfterGraph graph.now hosts.now script.now read.now.script read.now.lines source.now over) }
{
    match over {
        None => Ok(Comparison::Spent),
        Some(Ending::Ended) => compared_with(alloc, graph, hosts, script, read, source),
        Some(Ending::Threw(seen)) => Ok(Comparison::Threw(seen)),
        Some(Ending::Left { exit, site }) => left_at(alloc, graph, exit, site),
    }
}

/// The graph's run left its profile at this site.
fn left_at(alloc: Global, graph: &Graph, exit: u8, site: Site) -> Result<Comparison, AllocError>
    ensures { IfOk result (λ comparison. comparison ≡ left_at (sites_of graph.now) exit site) }
{
    let places = GraphPlaces { graph };
    Ok(Comparison::Left {
        exit,
        path: Name::of_bytes(alloc, places.path(site))?,
        place: places.place(site),
    })
}

/// The same where the graph's run ended and had these events.
#[tactic(auto, using(crate::proofs::Shown::script_shown))]
fn compared_with(
    alloc: Global,
    graph: &Graph,
    hosts: &HostNames,
    script: &[u8],
    read: &ReadScript,
    source: &[Event],
) -> Result<Comparison, AllocError>
    ensures { IfOk result (IsComparedWith graph.now hosts.now script.now read.now.script read.now.lines source.now) }
{
    let Answered { events, over } = script_answered(alloc, hosts, read)?;
    after_script(
        alloc,
        graph,
        script,
        &read.lines,
        source,
        events.as_slice(),
        over,
    )
}

/// The same where the script's run had these events, and ended so, if it did.
fn after_script(
    alloc: Global,
    graph: &Graph,
    script: &[u8],
    lines: &Lines,
    source: &[Event],
    events: &[Event],
    over: Option<Ending>,
) -> Result<Comparison, AllocError>
    ensures { IfOk result (AfterScript graph.now script.now lines.now source.now events.now over) }
{
    match over {
        Some(Ending::Ended) => events_compared(alloc, graph, script, lines, events, source),
        Some(Ending::Threw(_)) | Some(Ending::Left { .. }) | None => Ok(Comparison::Spent),
    }
}

/// The same where both runs ended and had these events.
fn events_compared(
    alloc: Global,
    graph: &Graph,
    script: &[u8],
    lines: &Lines,
    events: &[Event],
    source: &[Event],
) -> Result<Comparison, AllocError>
    ensures { IfOk result (AreCompared graph.now script.now lines.now events.now source.now) }
{
    match map_of_script(alloc, script) {
        Ok(map) if same_events(&map, lines, &GraphPlaces { graph }, events, source) => {
            Ok(Comparison::Same {
                events: source.len(),
            })
        }
        Err(MapFault::OutOfMemory) => Err(AllocError),
        _ => Ok(Comparison::Unlike),
    }
}

/// What is seen of the script's run.
fn script_answered(
    alloc: Global,
    hosts: &HostNames,
    read: &ReadScript,
) -> Result<Answered, AllocError>
    ensures { IfOk result (λ seen. Shows5 hosts.now read.now.script seen.events seen.over) }
{
    let core = core_of_script(alloc, Sites::BySpan, &read.script)?;
    let mut run = Run5::new(alloc, &core, hosts)?;
    run_answered(alloc, &mut run, MOST_STEPS)
}
