//! What is pending in patterns.

use crate::holds::Holds;
use crate::pending::{Pending, of_body, of_call, of_end, of_pattern, of_slot, of_target};
use es_heap::Key;
use es_value::{ObjId, Value};
use es6_ast::{ArrayPart, Expression, ObjectPart, Pattern};
use source_patterns::PatternWork;
use source_state::{Binds, Completion, Node, Nodes, Slot, Taking};
use source_takers::{BodyTaker, CallTaker, EndTaker, PatternTaker, SlotTaker, TargetTaker};

#[tactic(auto, unfolding(source_takers::specs::Takers::call_work, source_takers::specs::Takers::target_work, source_takers::specs::Takers::pattern_work, source_takers::specs::Takers::slot_work, source_takers::specs::Takers::body_work, source_takers::specs::Takers::end_work))]
impl<'a, H: Holds<'a>> PatternWork<'a> for Pending<H> {
    fn ignoring() -> Pending<H> {
        of_call(CallTaker::Ignoring)
    }

    fn closing(completion: Completion<'a>) -> Pending<H> {
        of_call(CallTaker::Closing(completion))
    }

    fn put_to(value: Value) -> Pending<H> {
        of_target(TargetTaker::PutTo(value))
    }

    fn defaulted(binds: Binds, slot: Slot<'a>) -> Pending<H> {
        of_pattern(PatternTaker::Defaulted(binds, slot))
    }

    fn pattern_iterator(binds: Binds, parts: Nodes<'a, ArrayPart>) -> Pending<H> {
        of_pattern(PatternTaker::PatternIterator(binds, parts))
    }

    fn element_target(
        done: bool,
        pattern: Node<'a, Pattern>,
        default: Option<Node<'a, Expression>>,
        taking: Taking<'a>,
    ) -> Pending<H> {
        of_slot(SlotTaker::ElementTarget(done, pattern, default, taking))
    }

    fn element_step(
        slot: Slot<'a>,
        default: Option<Node<'a, Expression>>,
        taking: Taking<'a>,
    ) -> Pending<H> {
        of_pattern(PatternTaker::ElementStep(slot, default, taking))
    }

    fn element_value(
        slot: Slot<'a>,
        default: Option<Node<'a, Expression>>,
        taking: Taking<'a>,
    ) -> Pending<H> {
        of_pattern(PatternTaker::ElementValue(slot, default, taking))
    }

    fn skip_step(taking: Taking<'a>) -> Pending<H> {
        of_pattern(PatternTaker::SkipStep(taking))
    }

    fn rest_target(done: bool, taking: Taking<'a>) -> Pending<H> {
        of_slot(SlotTaker::RestTarget(done, taking))
    }

    fn rest_step(slot: Slot<'a>, array: ObjId, taking: Taking<'a>) -> Pending<H> {
        of_pattern(PatternTaker::RestStep(slot, array, taking))
    }

    fn rest_value(slot: Slot<'a>, array: ObjId, taking: Taking<'a>) -> Pending<H> {
        of_pattern(PatternTaker::RestValue(slot, array, taking))
    }

    fn elements_rest(done: bool, taking: Taking<'a>) -> Pending<H> {
        of_body(BodyTaker::ElementsRest(done, taking))
    }

    fn member_target(
        value: Value,
        key: Key,
        default: Option<Node<'a, Expression>>,
        parts: Nodes<'a, ObjectPart>,
    ) -> Pending<H> {
        of_target(TargetTaker::MemberTarget(value, key, default, parts))
    }

    fn member_value(
        binds: Binds,
        value: Value,
        slot: Slot<'a>,
        default: Option<Node<'a, Expression>>,
        parts: Nodes<'a, ObjectPart>,
    ) -> Pending<H> {
        of_pattern(PatternTaker::MemberValue(binds, value, slot, default, parts))
    }

    fn members_rest(binds: Binds, value: Value, parts: Nodes<'a, ObjectPart>) -> Pending<H> {
        of_end(EndTaker::MembersRest(binds, value, parts))
    }
}
