//! Generators as they are made, kept and ended (ECMA-262, 6th edition, 14.4.11, 25.3.3.1).

ghost use Rattle.std.specs.Prelude.{◌≡◌, IfOk};
ghost use Rattle.es_heap.specs.Heaps.{next_id};
ghost use Rattle.source_meaning.specs.Generators.{generated, generator_made, made_with, results, with_generator};
ghost use Rattle.source_moves.specs.Moves.{Steps};
ghost use Rattle.source_moves.specs.Seen.{context_of, generator_of, state_of};

use crate::contexts::context_with;
use crate::pending::CallWork;
use es_calls::iter_result;
use es_operation_steps::made_generator;
use es_value::{ObjId, Value};
use source_moves::{Move, Moved, PendingWork, impossible};
use source_state::{Completion, Context, Generator, State, Statements};
use std::alloc::{AllocError, Global};

/// Another generator with this number, if there is one.
#[tactic(auto, using(crate::proofs::Tables::set_seen))]
pub(crate) fn set_generator<'a, W: PendingWork<'a>>(
    number: usize,
    generator: Generator<W>,
    st: &mut State<'a, W>,
)
    ensures { state_of W.seen st.new ≡ with_generator number (generator_of W.seen generator) (state_of W.seen st.old) }
{
    st.generators.set(number, generator);
}

/// A new generator, whose context is saved.
#[tactic(auto, using(crate::proofs::Tables::push_seen))]
fn made_with<'a, W: PendingWork<'a>>(
    alloc: Global,
    prototype: ObjId,
    saved: Context<W>,
    st: &mut State<'a, W>,
) -> Result<ObjId, AllocError>
    ensures { IfOk result (λ id. (id ≡ next_id st.old.heap) × (state_of W.seen st.new ≡ made_with prototype (context_of W.seen saved) (state_of W.seen st.old))) }
{
    let number = st.generators.len();
    let id = made_generator(alloc, &mut st.heap, prototype, number)?;
    st.generators.push(Generator::AtStart(saved))?;
    Ok(id)
}

/// Behind the parameters the object is made, and the body waits.
pub fn generator_made<'a, W: CallWork<'a>>(
    alloc: Global,
    body: Statements<'a>,
    prototype: Value,
    st: &mut State<'a, W>,
) -> Moved<'a>
    ensures { Steps W.seen result st.new (generator_made body.entry (state_of W.seen st.old) prototype) }
{
    match prototype {
        Value::Object(above) => {
            let saved = context_with(alloc, W::generator_start(body), &st.context)?;
            let id = made_with(alloc, above, saved, st)?;
            Ok(Move::hand(Completion::Returns(Value::Object(id))))
        }
        _ => impossible(st),
    }
}

/// Gives the result of a step of an iterator (7.4.7).
pub(crate) fn results<'a, W: PendingWork<'a>>(
    alloc: Global,
    value: Value,
    over: bool,
    st: &mut State<'a, W>,
) -> Moved<'a>
    ensures { Steps W.seen result st.new (results value over (state_of W.seen st.old)) }
{
    let id = iter_result(alloc, &mut st.heap, value, over)?;
    Ok(Move::give(Value::Object(id)))
}

/// What a generator ends with is handed to its caller.
pub fn generated<'a, W: PendingWork<'a>>(
    alloc: Global,
    number: usize,
    completion: Completion<'a>,
    st: &mut State<'a, W>,
) -> Moved<'a>
    ensures { Steps W.seen result st.new (generated number (state_of W.seen st.old) completion.entry) }
{
    set_generator(number, Generator::Completed, st);
    match completion {
        Completion::Gives(value) => results(alloc, value, true, st),
        other => Ok(Move::hand(other)),
    }
}
