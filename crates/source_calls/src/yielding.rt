//! Yields (ECMA-262, 6th edition, 25.3.3.5): the context is saved, and its caller goes on.

ghost use Rattle.std.specs.Prelude.{◌≡◌};
ghost use Rattle.source_calls.specs.Yields.{yielded_to, yields_above};
ghost use Rattle.source_meaning.specs.Generators.{handed_out, yields};
ghost use Rattle.source_moves.specs.Moves.{Steps};
ghost use Rattle.source_moves.specs.Seen.{context_of, state_of};

use crate::generators::{results, set_generator};
use crate::pending::CallWork;
use es_value::Value;
use source_moves::{Move, Moved, PendingWork, impossible, push};
use source_state::{Context, Generator, State};
use std::alloc::Global;

/// A result object is made of the value, but by `yield*`.
fn handed_out<'a, W: PendingWork<'a>>(
    alloc: Global,
    wraps: bool,
    value: Value,
    st: &mut State<'a, W>,
) -> Moved<'a>
    ensures { Steps W.seen result st.new (handed_out wraps value (state_of W.seen st.old)) }
{
    if wraps {
        results(alloc, value, false, st)
    } else {
        Ok(Move::give(value))
    }
}

/// The context of this generator is saved with this work, and its caller, which was taken from the callers, goes on.
fn yield_to<'a, W: CallWork<'a>>(
    alloc: Global,
    number: usize,
    work: W,
    wraps: bool,
    value: Value,
    caller: Context<W>,
    st: &mut State<'a, W>,
) -> Moved<'a>
    ensures { Steps W.seen result st.new (yielded_to number (W.seen work) wraps value (context_of W.seen caller) (state_of W.seen st.old)) }
{
    push(st, work)?;
    let saved = std::mem::replace(&mut st.context, caller);
    set_generator(number, Generator::AtYield(saved), st);
    handed_out(alloc, wraps, value, st)
}

/// What the caller's top work says of the generator.
#[tactic(auto, using(crate::proofs::Callers::yield_none, crate::proofs::Callers::yield_some))]
fn yields_above<'a, W: CallWork<'a>>(
    alloc: Global,
    work: W,
    wraps: bool,
    value: Value,
    caller: Context<W>,
    above: &W,
    st: &mut State<'a, W>,
) -> Moved<'a>
    ensures { Steps W.seen result st.new (yields_above (W.seen work) wraps value (state_of W.seen st.old) (context_of W.seen caller) (W.seen above.now)) }
{
    match above.generator() {
        None => impossible(st),
        Some(number) => yield_to(alloc, number, work, wraps, value, caller, st),
    }
}

/// GeneratorYield: the context is saved with this work, and the caller of the generator is given the value.
#[tactic(auto, using(crate::proofs::Callers::yield_taken))]
pub fn yields<'a, W: CallWork<'a>>(
    alloc: Global,
    work: W,
    wraps: bool,
    value: Value,
    st: &mut State<'a, W>,
) -> Moved<'a>
    ensures { Steps W.seen result st.new (yields (W.seen work) wraps value (state_of W.seen st.old)) }
{
    let Some(mut caller) = st.callers.pop() else {
        return impossible(st);
    };
    match caller.frames.pop() {
        None => impossible(st),
        Some(frame) => yields_above(alloc, work, wraps, value, caller, &frame.work, st),
    }
}
