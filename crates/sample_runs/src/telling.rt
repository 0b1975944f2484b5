//! The line of the two runs of a sample.

ghost use Rattle.std.specs.Prelude.{◌≡◌, ◌++◌, ◌≤◌, IfOk, OnOk};
ghost use Rattle.std.specs.Fmt.{decimal};
ghost use Rattle.sample_runs.specs.Telling.{same_line, sample_line};

use crate::comparing::MOST_STEPS;
use crate::comparison::Comparison;
use run_lines::{push_left, push_still_running, push_threw};
use std::alloc::{AllocError, Global};

/// What is written of the runs of the sample graph with so many modules beside its entry: that both had the same events, or how they ended otherwise.
/// Of runs whose events differ and of bytes that are no script there is nothing.
pub fn sample_line(
    alloc: Global,
    count: u64,
    comparison: &Comparison,
) -> Result<Vec<u8>, AllocError>
    requires few { count ≤ 1000 }
    ensures { IfOk result (λ line. line.items ≡ sample_line count comparison.now) }
{
    let mut line = Vec::new(alloc);
    match comparison {
        Comparison::Same { events } => push_same(alloc, &mut line, count, *events)?,
        Comparison::Threw(seen) => push_threw(alloc, &mut line, seen)?,
        Comparison::Left { exit, path, place } => {
            push_left(alloc, &mut line, *exit, path.bytes(), place)?
        }
        Comparison::Spent => push_still_running(alloc, &mut line, MOST_STEPS)?,
        Comparison::Unlike | Comparison::Unread(_) => {}
    }
    Ok(line)
}

/// Adds the line of two runs that had the same events, so many.
fn push_same(alloc: Global, line: &mut Vec<u8>, count: u64, events: usize) -> Result<(), AllocError>
    requires few { count ≤ 1000 }
    ensures { OnOk result (line.new.items ≡ line.old.items ++ same_line count events) }
{
    push_numbered(alloc, line, "sample ", count)?;
    push_numbered(alloc, line, ": modules ", count + 1)?;
    push_numbered(alloc, line, ", events ", events as u64)?;
    line.extend_from_slice(b", same\n")
}

/// Adds a number in decimal behind a text.
fn push_numbered(
    alloc: Global,
    line: &mut Vec<u8>,
    text: &str,
    number: u64,
) -> Result<(), AllocError>
    ensures { OnOk result (line.new.items ≡ line.old.items ++ (text.now ++ decimal number)) }
{
    let digits = format!(in alloc; "{number}")?;
    line.extend_from_slice(text.as_bytes())?;
    line.extend_from_slice(digits.as_bytes())
}
