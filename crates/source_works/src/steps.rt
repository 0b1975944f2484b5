//! What a turn leaves pending, and what pending work takes.

use crate::holds::Holds;
use crate::pending::{Pending, of_caller};
use es_calls::BuiltinCall;
use source_step::StepWork;
use source_takers::{CallerTaker, Taker};

#[tactic(auto, unfolding(source_takers::specs::Takers::caller_work))]
impl<'a, H: Holds<'a>> StepWork<'a> for Pending<H> {
    fn operation(call: BuiltinCall) -> Pending<H> {
        of_caller(CallerTaker::Operation(call))
    }

    fn taken_apart(self) -> Taker<'a> {
        self.held.into_taker()
    }
}
