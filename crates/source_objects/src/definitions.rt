//! How properties are defined (ECMA-262, 6th edition, 7.3.7).

ghost use Rattle.es_realm.specs.Access.{define_key};
ghost use Rattle.es_realm.specs.declared.edition.Edition.TheVariants.{Sixth};
ghost use Rattle.source_meaning.specs.Objects.{after_definition, defines};
ghost use Rattle.source_moves.specs.Seen.{state_of};
ghost use Rattle.source_objects.specs.Definitions.{Defines};

use es_calls::ErrorKind;
use es_heap::{Key, Prop};
use es_realm::{Edition, Write, define_key};
use es_value::ObjId;
use source_moves::{Move, PendingWork, leave, raise};
use source_state::State;
use std::alloc::{AllocError, Global};

/// How a definition goes on: with what comes next, or the step ends with this answer.
pub type Defined<'a> = Result<Option<Move<'a>>, AllocError>;

/// How the answer of a definition goes on: a refusal is a TypeError.
pub fn after_definition<'a, W: PendingWork<'a>>(
    alloc: Global,
    write: Write,
    st: &mut State<'a, W>,
) -> Defined<'a>
    ensures { Defines W.seen result st.new (after_definition write (state_of W.seen st.old)) }
{
    match write {
        Write::Done => Ok(None),
        Write::Leaves(exit) => Ok(Some(leave(st, exit)?)),
        Write::OutOfRange => Ok(Some(raise(alloc, ErrorKind::RangeError, st)?)),
        _ => Ok(Some(raise(alloc, ErrorKind::TypeError, st)?)),
    }
}

/// DefinePropertyOrThrow (7.3.7).
#[tactic(auto, using(crate::proofs::Going::defined_by))]
pub fn define<'a, W: PendingWork<'a>>(
    alloc: Global,
    object: ObjId,
    key: Key,
    property: Prop,
    st: &mut State<'a, W>,
) -> Defined<'a>
    ensures { Defines W.seen result st.new (defines object key property (state_of W.seen st.old)) }
{
    let write = define_key(alloc, Edition::Sixth, &mut st.heap, object, key, property)?;
    after_definition(alloc, write, st)
}
