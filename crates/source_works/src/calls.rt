//! What is pending in calls and generators.

ghost use Rattle.std.specs.Prelude.{◌≡◌};
ghost use Rattle.source_works.specs.Generators.{number_in};

use crate::holds::Holds;
use crate::pending::{Pending, of_call, of_caller, of_class, of_generator, of_resumption};
use es_calls::Resumption;
use es_value::Value;
use source_calls::CallWork;
use source_state::Statements;
use source_takers::{CallTaker, CallerTaker, ClassTaker, GeneratorTaker, ResumptionTaker, Taker};
use sqlite_items::Items;

/// The number of the generator that runs above the context of this work, if it is work of that kind.
fn number_in<'a>(taker: &Taker<'a>) -> Option<usize>
    ensures { result ≡ number_in taker.now }
{
    match taker {
        Taker::Caller(CallerTaker::Generates(number)) => Some(*number),
        _ => None,
    }
}

#[tactic(auto, using(crate::proofs::Generators::generator_number), unfolding(source_takers::specs::Takers::call_work, source_takers::specs::Takers::class_work, source_takers::specs::Takers::resumption_work, source_takers::specs::Takers::caller_work, source_takers::specs::Takers::generator_work))]
impl<'a, H: Holds<'a>> CallWork<'a> for Pending<H> {
    fn making(function: Value, args: Items<Value>, target: Value) -> Pending<H> {
        of_call(CallTaker::Making(function, args, target))
    }

    fn made(object: Value) -> Pending<H> {
        of_call(CallTaker::Made(object))
    }

    fn derived(number: usize) -> Pending<H> {
        of_call(CallTaker::Derived(number))
    }

    fn super_made() -> Pending<H> {
        of_class(ClassTaker::SuperMade)
    }

    fn generator_start(body: Statements<'a>) -> Pending<H> {
        of_resumption(ResumptionTaker::GeneratorStart(body))
    }

    fn generates(number: usize) -> Pending<H> {
        of_caller(CallerTaker::Generates(number))
    }

    fn generator(&self) -> Option<usize> {
        number_in(self.held.taker())
    }

    fn delegate_iterator() -> Pending<H> {
        of_generator(GeneratorTaker::DelegateIterator)
    }

    fn delegated(iterator: Value) -> Pending<H> {
        of_resumption(ResumptionTaker::Delegated(iterator))
    }

    fn delegate_result(iterator: Value, kind: Resumption, value: Value) -> Pending<H> {
        of_generator(GeneratorTaker::DelegateResult(iterator, kind, value))
    }

    fn delegate_done(iterator: Value, kind: Resumption, given: Value) -> Pending<H> {
        of_generator(GeneratorTaker::DelegateDone(iterator, kind, given))
    }

    fn delegate_value(kind: Resumption) -> Pending<H> {
        of_generator(GeneratorTaker::DelegateValue(kind))
    }
}
