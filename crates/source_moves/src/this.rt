//! `this` (ECMA-262, 6th edition, 8.1.1.3).

ghost use Rattle.std.specs.Prelude.{◌≡◌, IfOk};
ghost use Rattle.source_meaning.specs.Environments.{bind_this, this_of, this_stored};
ghost use Rattle.source_moves.specs.Moves.{Steps};
ghost use Rattle.source_moves.specs.Seen.{state_of};

use crate::moves::{Move, Moved};
use crate::pending::PendingWork;
use crate::records::{empty_record, share_this, this_at};
use crate::states::raise;
use es_calls::ErrorKind;
use es_value::Value;
use source_state::{EnvironmentRecord, State};
use std::alloc::{AllocError, Global};

/// What `this` is, if it is there (8.1.1.3.4).
pub fn this_of<'a, W: PendingWork<'a>>(st: &State<'a, W>) -> Result<Option<Value>, AllocError>
    ensures { IfOk result (λ this. this ≡ this_of (state_of W.seen st.now)) }
{
    share_this(this_at(&st.records, st.context.own.this_record))
}

#[tactic(auto, using(crate::proofs::Numbered::set_none, crate::proofs::Numbered::this_twice))]
fn store_this<'a, W: PendingWork<'a>>(
    alloc: Global,
    number: usize,
    value: Value,
    st: &mut State<'a, W>,
)
    ensures { state_of W.seen st.new ≡ this_stored number value (state_of W.seen st.old) }
{
    if let Some(record) = st.records.replace(number, empty_record(alloc)) {
        let record = EnvironmentRecord {
            bindings: record.bindings,
            this: Some(value),
        };
        st.records.set(number, record);
    }
}

/// Binds `this` (8.1.1.3.1), once.
pub fn bind_this<'a, W: PendingWork<'a>>(
    alloc: Global,
    value: Value,
    st: &mut State<'a, W>,
) -> Moved<'a>
    ensures { Steps W.seen result st.new (bind_this value (state_of W.seen st.old) (this_of (state_of W.seen st.old))) }
{
    let number = st.context.own.this_record;
    if this_at(&st.records, number).is_some() {
        return raise(alloc, ErrorKind::ReferenceError, st);
    }
    let given = value.share()?;
    store_this(alloc, number, value, st);
    Ok(Move::give(given))
}
