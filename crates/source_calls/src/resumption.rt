//! How generators are resumed (ECMA-262, 6th edition, 25.3.3.2 to 25.3.3.4). A saved context is taken out and moved.

ghost use Rattle.es_heap.specs.Heaps.{object_at};
ghost use Rattle.es_heap.specs.declared.class.Class.{Class};
ghost use Rattle.source_calls.specs.Resumptions.{resume_taken};
ghost use Rattle.source_meaning.specs.Generators.{arrives, completed, continues, from_start, resume, resume_class, starts};
ghost use Rattle.source_moves.specs.Moves.{Steps};
ghost use Rattle.source_moves.specs.Seen.{context_of, generator_of, state_of};

use crate::generators::{results, set_generator};
use crate::pending::CallWork;
use es_calls::{ErrorKind, Resumption};
use es_heap::Class;
use es_value::{ObjId, Value};
use source_moves::{Move, Moved, PendingWork, impossible, push, raise};
use source_state::{Completion, Context, Control, Generator, State, Statements};
use std::alloc::Global;

/// One that is at its end doesn't run.
fn completed<'a, W: PendingWork<'a>>(
    alloc: Global,
    kind: Resumption,
    value: Value,
    st: &mut State<'a, W>,
) -> Moved<'a>
    ensures { Steps W.seen result st.new (completed kind value (state_of W.seen st.old)) }
{
    match kind {
        Resumption::Next => results(alloc, Value::Undefined, true, st),
        Resumption::Return => results(alloc, value, true, st),
        Resumption::Throw => Ok(Move::hand(Completion::Throws(value))),
    }
}

/// The saved context goes on, above the present one.
fn continues<'a, W: CallWork<'a>>(
    number: usize,
    saved: Context<W>,
    kind: Resumption,
    value: Value,
    st: &mut State<'a, W>,
) -> Moved<'a>
    ensures { Steps W.seen result st.new (continues number (context_of W.seen saved) kind value (state_of W.seen st.old)) }
{
    push(st, W::generates(number))?;
    set_generator(number, Generator::Executing, st);
    let waiting = std::mem::replace(&mut st.context, saved);
    st.callers.push(waiting)?;
    Ok(Move::hand(Completion::Resumes(kind, value)))
}

/// At its start it runs only where it goes on to the next value.
fn from_start<'a, W: CallWork<'a>>(
    alloc: Global,
    number: usize,
    saved: Context<W>,
    kind: Resumption,
    value: Value,
    st: &mut State<'a, W>,
) -> Moved<'a>
    ensures { Steps W.seen result st.new (from_start number (context_of W.seen saved) kind value (state_of W.seen st.old)) }
{
    match kind {
        Resumption::Next => continues(number, saved, kind, value, st),
        Resumption::Return | Resumption::Throw => {
            set_generator(number, Generator::Completed, st);
            completed(alloc, kind, value, st)
        }
    }
}

/// Resumes this generator, which was taken out of the state.
#[tactic(auto, using(crate::proofs::Tables::set_again))]
fn resume_taken<'a, W: CallWork<'a>>(
    alloc: Global,
    number: usize,
    kind: Resumption,
    value: Value,
    generator: Generator<W>,
    st: &mut State<'a, W>,
) -> Moved<'a>
    ensures { Steps W.seen result st.new (resume_taken number kind value (generator_of W.seen generator) (state_of W.seen st.old)) }
{
    match generator {
        Generator::AtStart(saved) => from_start(alloc, number, saved, kind, value, st),
        Generator::AtYield(saved) => continues(number, saved, kind, value, st),
        Generator::Executing => {
            set_generator(number, Generator::Executing, st);
            raise(alloc, ErrorKind::TypeError, st)
        }
        Generator::Completed => {
            set_generator(number, Generator::Completed, st);
            completed(alloc, kind, value, st)
        }
    }
}

/// Resumes the generator of this number; while its context is taken out it counts as one that runs.
#[tactic(auto, using(crate::proofs::Tables::taken_none))]
fn resume_at<'a, W: CallWork<'a>>(
    alloc: Global,
    number: usize,
    kind: Resumption,
    value: Value,
    st: &mut State<'a, W>,
) -> Moved<'a>
    ensures { Steps W.seen result st.new (resume_class kind value (state_of W.seen st.old) (Class.Generator number)) }
{
    match st.generators.replace(number, Generator::Executing) {
        None => impossible(st),
        Some(generator) => resume_taken(alloc, number, kind, value, generator, st),
    }
}

fn resume_object<'a, W: CallWork<'a>>(
    alloc: Global,
    kind: Resumption,
    object: ObjId,
    value: Value,
    st: &mut State<'a, W>,
) -> Moved<'a>
    ensures { Steps W.seen result st.new (resume_class kind value (state_of W.seen st.old) (object_at st.old.heap object).class) }
{
    match st.heap.class(object) {
        Class::Generator(number) => resume_at(alloc, *number, kind, value, st),
        _ => raise(alloc, ErrorKind::TypeError, st),
    }
}

/// Resumes a generator; another receiver, and one that runs, is a TypeError.
pub fn resume<'a, W: CallWork<'a>>(
    alloc: Global,
    kind: Resumption,
    receiver: Value,
    value: Value,
    st: &mut State<'a, W>,
) -> Moved<'a>
    ensures { Steps W.seen result st.new (resume kind receiver value (state_of W.seen st.old)) }
{
    match receiver {
        Value::Object(object) => resume_object(alloc, kind, object, value, st),
        _ => raise(alloc, ErrorKind::TypeError, st),
    }
}

/// What a resumption is at a yield (25.3.3.5).
pub fn arrives<'a, W: PendingWork<'a>>(
    kind: Resumption,
    value: Value,
    st: &State<'a, W>,
) -> Moved<'a>
    ensures { Steps W.seen result st.now (arrives (state_of W.seen st.now) kind value) }
{
    let completion = match kind {
        Resumption::Next => Completion::Gives(value),
        Resumption::Return => Completion::Returns(value),
        Resumption::Throw => Completion::Throws(value),
    };
    Ok(Move::hand(completion))
}

/// The start of a generator.
pub fn starts<'a, W: PendingWork<'a>>(body: Statements<'a>, st: &State<'a, W>) -> Moved<'a>
    ensures { Steps W.seen result st.now (starts body.entry (state_of W.seen st.now)) }
{
    Ok(Move::Goes(Control::Run(body)))
}
