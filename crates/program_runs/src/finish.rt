//! The last line of a run.

ghost use Rattle.std.specs.Prelude.{◌≡◌, ◌≤◌, IfOk};
ghost use Rattle.program_runs.specs.Around.{output};
ghost use Rattle.program_runs.specs.Outcomes.{Finishes, end_of, last_line};

use crate::end::{Halt, RunEnd};
use crate::places::Places;
use crate::telling::write_line;
use es_outside::{Ending, Sink};
use run_lines::{push_ended, push_left, push_still_running, push_threw};
use std::alloc::{AllocError, Global};

/// Writes the last line of a run that ended so, or was stopped after so many steps.
pub(crate) fn finish<P: Places, S: Sink>(
    alloc: Global,
    places: &P,
    steps: u64,
    over: &Option<Ending>,
    out: &mut S,
) -> RunEnd
    ensures finishes { Finishes (last_line (P.sites places.now) steps over.now) (end_of over.now)
        (output S.bytes S.faults out.old) (output S.bytes S.faults out.new) result }
    ensures no_fall { S.faults out.old ≤ S.faults out.new }
{
    match last_text(alloc, places, steps, over) {
        Ok(line) => say(line.as_slice(), RunEnd::of(over), out),
        Err(_) => RunEnd::OutOfMemory,
    }
}

/// Writes the line of a run that ends so.
fn say<S: Sink>(line: &[u8], end: RunEnd, out: &mut S) -> RunEnd
    ensures finishes { Finishes line.now end (output S.bytes S.faults out.old) (output S.bytes S.faults out.new) result }
    ensures no_fall { S.faults out.old ≤ S.faults out.new }
{
    match write_line(out, line) {
        Ok(()) => end,
        Err(halt) => RunEnd::from(halt),
    }
}

fn last_text<P: Places>(
    alloc: Global,
    places: &P,
    steps: u64,
    over: &Option<Ending>,
) -> Result<Vec<u8>, AllocError>
    ensures { IfOk result (λ line. line.items ≡ last_line (P.sites places.now) steps over.now) }
{
    let mut line = Vec::new(alloc);
    match over {
        None => push_still_running(alloc, &mut line, steps)?,
        Some(Ending::Ended) => push_ended(&mut line)?,
        Some(Ending::Threw(seen)) => push_threw(alloc, &mut line, seen)?,
        Some(Ending::Left { exit, site }) => {
            let place = places.place(*site);
            push_left(alloc, &mut line, *exit, places.path(*site), &place)?
        }
    }
    Ok(line)
}
