//! Pending work that holds what it takes, and how it is made of each small enum.

ghost use Rattle.std.specs.Prelude.{◌≡◌};
ghost use Rattle.source_takers.specs.Takers.{assign_work, body_work, call_work, caller_work, class_work, end_work, generator_work, list_work, literal_work, loop_work, operator_work, pattern_work, resumption_work, scope_work, slot_work, statement_work, target_work, value_work};
ghost use Rattle.source_works.specs.Seen.{seen_of};

use crate::holds::Holds;
use es_value::Value;
use source_moves::PendingWork;
use source_state::Naming;
use source_takers::{
    AssignTaker, BodyTaker, CallTaker, CallerTaker, ClassTaker, EndTaker, GeneratorTaker,
    ListTaker, LiteralTaker, LoopTaker, OperatorTaker, PatternTaker, ResumptionTaker, ScopeTaker,
    SlotTaker, StatementTaker, Taker, TargetTaker, ValueTaker,
};

/// Pending work of a run of modules, in what holds it.
#[derive(Drop)]
pub struct Pending<H> {
    pub(crate) held: H,
}

/// What takes a value alone.
#[tactic(auto, unfolding(source_takers::specs::Takers::work_of))]
fn of_value<'a, H: Holds<'a>>(taker: ValueTaker<'a>) -> Pending<H>
    ensures { seen_of H.held result ≡ value_work taker.entry }
{
    Pending {
        held: H::holding(Taker::Value(taker)),
    }
}

/// A part of a chain, of a list or of a call.
#[tactic(auto, unfolding(source_takers::specs::Takers::value_work))]
pub(crate) fn of_list<'a, H: Holds<'a>>(taker: ListTaker<'a>) -> Pending<H>
    ensures { seen_of H.held result ≡ list_work taker.entry }
{
    of_value(ValueTaker::List(taker))
}

/// `super`, or the heritage of a class.
#[tactic(auto, unfolding(source_takers::specs::Takers::value_work))]
pub(crate) fn of_class<'a, H: Holds<'a>>(taker: ClassTaker<'a>) -> Pending<H>
    ensures { seen_of H.held result ≡ class_work taker.entry }
{
    of_value(ValueTaker::Class(taker))
}

/// A template, a property or a computed name.
#[tactic(auto, unfolding(source_takers::specs::Takers::value_work))]
pub(crate) fn of_literal<'a, H: Holds<'a>>(taker: LiteralTaker<'a>) -> Pending<H>
    ensures { seen_of H.held result ≡ literal_work taker.entry }
{
    of_value(ValueTaker::Literal(taker))
}

/// An operator.
#[tactic(auto, unfolding(source_takers::specs::Takers::value_work))]
pub(crate) fn of_operator<'a, H: Holds<'a>>(taker: OperatorTaker<'a>) -> Pending<H>
    ensures { seen_of H.held result ≡ operator_work taker.entry }
{
    of_value(ValueTaker::Operator(taker))
}

/// An update or an assignment.
#[tactic(auto, unfolding(source_takers::specs::Takers::value_work))]
pub(crate) fn of_assign<'a, H: Holds<'a>>(taker: AssignTaker<'a>) -> Pending<H>
    ensures { seen_of H.held result ≡ assign_work taker.entry }
{
    of_value(ValueTaker::Assign(taker))
}

/// A pattern.
#[tactic(auto, unfolding(source_takers::specs::Takers::value_work))]
pub(crate) fn of_pattern<'a, H: Holds<'a>>(taker: PatternTaker<'a>) -> Pending<H>
    ensures { seen_of H.held result ≡ pattern_work taker.entry }
{
    of_value(ValueTaker::Pattern(taker))
}

/// A statement.
#[tactic(auto, unfolding(source_takers::specs::Takers::value_work))]
pub(crate) fn of_statement<'a, H: Holds<'a>>(taker: StatementTaker<'a>) -> Pending<H>
    ensures { seen_of H.held result ≡ statement_work taker.entry }
{
    of_value(ValueTaker::Statement(taker))
}

/// A loop.
#[tactic(auto, unfolding(source_takers::specs::Takers::value_work))]
pub(crate) fn of_loop<'a, H: Holds<'a>>(taker: LoopTaker<'a>) -> Pending<H>
    ensures { seen_of H.held result ≡ loop_work taker.entry }
{
    of_value(ValueTaker::Loop(taker))
}

/// A call or a construction.
#[tactic(auto, unfolding(source_takers::specs::Takers::value_work))]
pub(crate) fn of_call<'a, H: Holds<'a>>(taker: CallTaker<'a>) -> Pending<H>
    ensures { seen_of H.held result ≡ call_work taker.entry }
{
    of_value(ValueTaker::Call(taker))
}

/// A generator.
#[tactic(auto, unfolding(source_takers::specs::Takers::value_work))]
pub(crate) fn of_generator<'a, H: Holds<'a>>(taker: GeneratorTaker<'a>) -> Pending<H>
    ensures { seen_of H.held result ≡ generator_work taker.entry }
{
    of_value(ValueTaker::Generator(taker))
}

/// What takes a value or a reference.
#[tactic(auto, unfolding(source_takers::specs::Takers::work_of))]
pub(crate) fn of_target<'a, H: Holds<'a>>(taker: TargetTaker<'a>) -> Pending<H>
    ensures { seen_of H.held result ≡ target_work taker.entry }
{
    Pending {
        held: H::holding(Taker::Target(taker)),
    }
}

/// What takes an end alone.
#[tactic(auto, unfolding(source_takers::specs::Takers::work_of))]
pub(crate) fn of_end<'a, H: Holds<'a>>(taker: EndTaker<'a>) -> Pending<H>
    ensures { seen_of H.held result ≡ end_work taker.entry }
{
    Pending {
        held: H::holding(Taker::End(taker)),
    }
}

/// What takes what a generator is resumed with.
#[tactic(auto, unfolding(source_takers::specs::Takers::work_of))]
pub(crate) fn of_resumption<'a, H: Holds<'a>>(taker: ResumptionTaker<'a>) -> Pending<H>
    ensures { seen_of H.held result ≡ resumption_work taker.entry }
{
    Pending {
        held: H::holding(Taker::Resumption(taker)),
    }
}

/// What takes a value or an end.
#[tactic(auto, unfolding(source_takers::specs::Takers::work_of))]
pub(crate) fn of_scope<'a, H: Holds<'a>>(taker: ScopeTaker<'a>) -> Pending<H>
    ensures { seen_of H.held result ≡ scope_work taker.entry }
{
    Pending {
        held: H::holding(Taker::Scope(taker)),
    }
}

/// What takes a value, and is told of a throw.
#[tactic(auto, unfolding(source_takers::specs::Takers::work_of))]
pub(crate) fn of_caller<'a, H: Holds<'a>>(taker: CallerTaker) -> Pending<H>
    ensures { seen_of H.held result ≡ caller_work taker }
{
    Pending {
        held: H::holding(Taker::Caller(taker)),
    }
}

/// What takes an end, and is told how it is left otherwise.
#[tactic(auto, unfolding(source_takers::specs::Takers::work_of))]
pub(crate) fn of_body<'a, H: Holds<'a>>(taker: BodyTaker<'a>) -> Pending<H>
    ensures { seen_of H.held result ≡ body_work taker.entry }
{
    Pending {
        held: H::holding(Taker::Body(taker)),
    }
}

/// What takes a value or a reference, and closes an iterator where it is left.
#[tactic(auto, unfolding(source_takers::specs::Takers::work_of))]
pub(crate) fn of_slot<'a, H: Holds<'a>>(taker: SlotTaker<'a>) -> Pending<H>
    ensures { seen_of H.held result ≡ slot_work taker.entry }
{
    Pending {
        held: H::holding(Taker::Slot(taker)),
    }
}

#[tactic(auto, unfolding(source_takers::specs::Takers::scope_work, source_takers::specs::Takers::literal_work))]
impl<'a, H: Holds<'a>> PendingWork<'a> for Pending<H> {
    ghost use Rattle.source_works.specs.Seen.{seen_of};

    ghost seen = { seen_of H.held };

    fn behind(value: Value) -> Pending<H> {
        of_scope(ScopeTaker::Behind(value))
    }

    fn key_value(naming: Naming<'a>) -> Pending<H> {
        of_literal(LiteralTaker::KeyValue(naming))
    }

    fn key_text(naming: Naming<'a>) -> Pending<H> {
        of_literal(LiteralTaker::KeyText(naming))
    }
}
