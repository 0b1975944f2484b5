//! What is pending where a value is taken.

use crate::holds::Holds;
use crate::pending::{Pending, of_assign, of_operator, of_resumption};
use es_value::Value;
use es6_ast::AssignOperator;
use source_state::Reference;
use source_takers::{AssignTaker, OperatorTaker, ResumptionTaker};
use source_values::ValueWork;

#[tactic(auto, unfolding(source_takers::specs::Takers::operator_work, source_takers::specs::Takers::assign_work, source_takers::specs::Takers::resumption_work))]
impl<'a, H: Holds<'a>> ValueWork<'a> for Pending<H> {
    fn power_exponent(base: Value) -> Pending<H> {
        of_operator(OperatorTaker::PowerExponent(base))
    }

    fn assign_right(operator: AssignOperator, reference: Reference<'a>, old: Value) -> Pending<H> {
        of_assign(AssignTaker::AssignRight(operator, reference, old))
    }

    fn yielded() -> Pending<H> {
        of_resumption(ResumptionTaker::Yielded)
    }
}
