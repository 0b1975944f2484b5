//! References as expressions take them (ECMA-262, 6th edition, 6.2.3), and keys in brackets behind `super` (12.3.5.1).

ghost use Rattle.std.specs.Prelude.{◌≡◌, IfOk};
ghost use Rattle.source_meaning.specs.Expressions.{super_keyed, super_named};
ghost use Rattle.source_moves.specs.Moves.{Steps};
ghost use Rattle.source_moves.specs.Seen.{state_of};

use crate::pending::ExpressionWork;
use es_heap::Key;
use es_operation_steps::Operation;
use es_value::Value;
use source_moves::{Moved, PendingWork, impossible, operate, super_reference};
use source_state::{Reference, State};
use sqlite_items::Items;
use std::alloc::{AllocError, Global};

/// An equal reference.
pub(crate) fn share_reference<'a>(reference: &Reference<'a>) -> Result<Reference<'a>, AllocError>
    ensures { IfOk result (λ shared. shared ≡ reference.now) }
{
    match reference {
        Reference::OfName(name) => Ok(Reference::OfName(name.share())),
        Reference::OfProperty(base, key) => Ok(Reference::OfProperty(base.share()?, key.share()?)),
        Reference::OfSuper(this, key) => Ok(Reference::OfSuper(this.share()?, key.share()?)),
    }
}

/// The value in the brackets behind `super` becomes a text.
pub fn super_keyed<'a, W: ExpressionWork<'a>>(
    alloc: Global,
    wanted: bool,
    value: Value,
    st: &mut State<'a, W>,
) -> Moved<'a>
    ensures { Steps W.seen result st.new (super_keyed wanted (state_of W.seen st.old) value) }
{
    let operands = Items::new(alloc);
    let work = W::super_keyed(wanted);
    operate(alloc, work, Operation::ToText, value, operands, st)
}

/// That text is the key of a reference to `super`.
pub fn super_named<'a, W: PendingWork<'a>>(
    alloc: Global,
    wanted: bool,
    value: Value,
    st: &mut State<'a, W>,
) -> Moved<'a>
    ensures { Steps W.seen result st.new (super_named wanted (state_of W.seen st.old) value) }
{
    match value {
        Value::Text(units) => super_reference(alloc, wanted, Key::Text(units), st),
        _ => impossible(st),
    }
}
