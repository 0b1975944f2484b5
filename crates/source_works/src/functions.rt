//! What is pending in functions that are entered.

use crate::holds::Holds;
use crate::pending::{Pending, of_call, of_end, of_generator, of_list, of_statement};
use es_value::Value;
use es6_ast::{Parameter, Pattern};
use source_entering::EntryWork;
use source_functions::FunctionWork;
use source_state::{Code, Listing, Node, Nodes, Statements};
use source_takers::{CallTaker, EndTaker, GeneratorTaker, ListTaker, StatementTaker};
use sqlite_items::Items;

#[tactic(auto, unfolding(source_takers::specs::Takers::call_work, source_takers::specs::Takers::end_work, source_takers::specs::Takers::statement_work))]
impl<'a, H: Holds<'a>> FunctionWork<'a> for Pending<H> {
    fn parameter_default(
        pattern: Node<'a, Pattern>,
        parameters: Nodes<'a, Parameter>,
        values: Items<Value>,
    ) -> Pending<H> {
        of_call(CallTaker::ParameterDefault(pattern, parameters, values))
    }

    fn parameters_rest(parameters: Nodes<'a, Parameter>, values: Items<Value>) -> Pending<H> {
        of_end(EndTaker::ParametersRest(parameters, values))
    }

    fn returning() -> Pending<H> {
        of_statement(StatementTaker::Returning)
    }
}

#[tactic(auto, unfolding(source_takers::specs::Takers::end_work, source_takers::specs::Takers::generator_work, source_takers::specs::Takers::list_work))]
impl<'a, H: Holds<'a>> EntryWork<'a> for Pending<H> {
    fn parameters_bound(code: Code<'a>) -> Pending<H> {
        of_end(EndTaker::ParametersBound(code))
    }

    fn generator_prototype(body: Statements<'a>) -> Pending<H> {
        of_generator(GeneratorTaker::GeneratorPrototype(body))
    }

    fn spread_iterator(listing: Listing<'a>) -> Pending<H> {
        of_list(ListTaker::SpreadIterator(listing))
    }
}
