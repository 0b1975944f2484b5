//! Patterns with their values (ECMA-262, 6th edition, 12.14.5.2, 13.3.3.5).

ghost use Rattle.std.specs.Prelude.{◌≡◌, if◌then◌else◌};
ghost use Rattle.es6_ast.specs.declared.tree.Pattern.{out-Pattern};
ghost use Rattle.es_operators.specs.Operators.{is_nothing};
ghost use Rattle.es_realm.specs.declared.errors.ErrorKind.TheVariants.{TypeError};
ghost use Rattle.source_meaning.specs.Patterns.{destructure, members_on};
ghost use Rattle.source_meaning.specs.Steps.{raises};
ghost use Rattle.source_moves.specs.Moves.{Steps};
ghost use Rattle.source_moves.specs.Seen.{state_of};

use crate::iteration::operate_alone;
use crate::members::members_on;
use crate::pending::PatternWork;
use crate::targets::target_by;
use es_calls::ErrorKind;
use es_operation_steps::Operation;
use es_operators::is_nothing;
use es_value::Value;
use es6_ast::{ObjectPart, Pattern};
use source_moves::{Moved, raise};
use source_state::{Binds, Nodes, State};
use std::alloc::Global;

/// An object pattern; undefined and null have no properties.
fn destructure_object<'a, W: PatternWork<'a>>(
    alloc: Global,
    binds: Binds,
    value: Value,
    parts: Nodes<'a, ObjectPart>,
    st: &mut State<'a, W>,
) -> Moved<'a>
    ensures { Steps W.seen result st.new (if is_nothing value then raises TypeError (state_of W.seen st.old) else members_on binds value parts.entry (state_of W.seen st.old)) }
{
    if is_nothing(&value) {
        return raise(alloc, ErrorKind::TypeError, st);
    }
    members_on(alloc, binds, value, parts, st)
}

/// A pattern takes a value.
pub fn destructure<'a, W: PatternWork<'a>>(
    alloc: Global,
    binds: Binds,
    value: Value,
    pattern: &'a Pattern,
    st: &mut State<'a, W>,
) -> Moved<'a>
    ensures { Steps W.seen result st.new (destructure binds value (state_of W.seen st.old) (out-Pattern pattern.now)) }
{
    match pattern {
        Pattern::Target(target) => target_by(alloc, target.get(), value, binds, st),
        Pattern::ArrayPattern { parts, .. } => {
            let work = W::pattern_iterator(binds, Nodes::of(parts));
            operate_alone(alloc, work, Operation::GetIterator, value, st)
        }
        Pattern::ObjectPattern { parts, .. } => {
            destructure_object(alloc, binds, value, Nodes::of(parts), st)
        }
    }
}
