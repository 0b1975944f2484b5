//! The work of patterns, by what makes it.

ghost use Rattle.std.specs.Prelude.{◌≡◌};

use es_heap::Key;
use es_value::{ObjId, Value};
use es6_ast::{ArrayPart, Expression, ObjectPart, Pattern};
use source_moves::PendingWork;
use source_state::{Binds, Completion, Node, Nodes, Slot, Taking};

/// Pending work that patterns leave too, with a maker for each kind.
pub trait PatternWork<'a>: PendingWork<'a> {
    ghost use Rattle.source_state.specs.declared.work.Work.TheVariants as work;

    fn ignoring() -> Self
        ensures { Self.seen result ≡ work.Ignoring };

    /// An iterator is closed under a completion (ECMA-262, 6th edition, 7.4.6).
    fn closing(completion: Completion<'a>) -> Self
        ensures { Self.seen result ≡ work.Closing completion.entry };

    /// The value is put where a reference names.
    fn put_to(value: Value) -> Self
        ensures { Self.seen result ≡ work.PutTo value };

    /// A value by default (13.3.3.6).
    fn defaulted(binds: Binds, slot: Slot<'a>) -> Self
        ensures { Self.seen result ≡ work.Defaulted binds slot.entry };

    /// The iterator of an array pattern (13.3.3.5).
    fn pattern_iterator(binds: Binds, parts: Nodes<'a, ArrayPart>) -> Self
        ensures { Self.seen result ≡ work.PatternIterator binds parts.entry };

    /// The target of a part of an array pattern, which comes first in an assignment (12.14.5.3).
    fn element_target(
        done: bool,
        pattern: Node<'a, Pattern>,
        default: Option<Node<'a, Expression>>,
        taking: Taking<'a>,
    ) -> Self
        ensures { Self.seen result ≡ work.ElementTarget done pattern.entry default.entry taking.entry };

    /// A step for a part, and its value.
    fn element_step(
        slot: Slot<'a>,
        default: Option<Node<'a, Expression>>,
        taking: Taking<'a>,
    ) -> Self
        ensures { Self.seen result ≡ work.ElementStep slot.entry default.entry taking.entry };

    fn element_value(
        slot: Slot<'a>,
        default: Option<Node<'a, Expression>>,
        taking: Taking<'a>,
    ) -> Self
        ensures { Self.seen result ≡ work.ElementValue slot.entry default.entry taking.entry };

    /// A step for a part without a target.
    fn skip_step(taking: Taking<'a>) -> Self
        ensures { Self.seen result ≡ work.SkipStep taking.entry };

    /// The target of a rest, a step for it, and a value.
    fn rest_target(done: bool, taking: Taking<'a>) -> Self
        ensures { Self.seen result ≡ work.RestTarget done taking.entry };

    fn rest_step(slot: Slot<'a>, array: ObjId, taking: Taking<'a>) -> Self
        ensures { Self.seen result ≡ work.RestStep slot.entry array taking.entry };

    fn rest_value(slot: Slot<'a>, array: ObjId, taking: Taking<'a>) -> Self
        ensures { Self.seen result ≡ work.RestValue slot.entry array taking.entry };

    /// The parts that follow in an array pattern.
    fn elements_rest(done: bool, taking: Taking<'a>) -> Self
        ensures { Self.seen result ≡ work.ElementsRest done taking.entry };

    /// The target of a part of an object pattern, which comes first in an assignment (12.14.5.4).
    fn member_target(
        value: Value,
        key: Key,
        default: Option<Node<'a, Expression>>,
        parts: Nodes<'a, ObjectPart>,
    ) -> Self
        ensures { Self.seen result ≡ work.MemberTarget value key default.entry parts.entry };

    /// The value of a property.
    fn member_value(
        binds: Binds,
        value: Value,
        slot: Slot<'a>,
        default: Option<Node<'a, Expression>>,
        parts: Nodes<'a, ObjectPart>,
    ) -> Self
        ensures { Self.seen result ≡ work.MemberValue binds value slot.entry default.entry parts.entry };

    /// The parts that follow in an object pattern.
    fn members_rest(binds: Binds, value: Value, parts: Nodes<'a, ObjectPart>) -> Self
        ensures { Self.seen result ≡ work.MembersRest binds value parts.entry };
}
