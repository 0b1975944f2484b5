//! What nodes that begin leave pending.

use crate::holds::Holds;
use crate::pending::{
    Pending, of_body, of_class, of_end, of_generator, of_list, of_operator, of_statement, of_target,
};
use es6_ast::{Argument, Case, Expression, Item, UnaryOperator, UpdateOperator};
use source_begins::BeginWork;
use source_state::{BorrowedName, Node, Nodes, Statements};
use source_takers::{
    BodyTaker, ClassTaker, EndTaker, GeneratorTaker, ListTaker, OperatorTaker, StatementTaker,
    TargetTaker,
};

#[tactic(auto, unfolding(source_takers::specs::Takers::list_work, source_takers::specs::Takers::class_work, source_takers::specs::Takers::target_work, source_takers::specs::Takers::operator_work, source_takers::specs::Takers::generator_work, source_takers::specs::Takers::statement_work, source_takers::specs::Takers::body_work, source_takers::specs::Takers::end_work))]
impl<'a, H: Holds<'a>> BeginWork<'a> for Pending<H> {
    fn new_callee(arguments: Nodes<'a, Argument>) -> Pending<H> {
        of_list(ListTaker::NewCallee(arguments))
    }

    fn super_key(wanted: bool) -> Pending<H> {
        of_class(ClassTaker::SuperKey(wanted))
    }

    fn update_reference(operator: UpdateOperator) -> Pending<H> {
        of_target(TargetTaker::UpdateReference(operator))
    }

    fn deleting() -> Pending<H> {
        of_target(TargetTaker::Deleting)
    }

    fn unary_value(operator: UnaryOperator) -> Pending<H> {
        of_operator(OperatorTaker::UnaryValue(operator))
    }

    fn power_base(exponent: Node<'a, Expression>) -> Pending<H> {
        of_operator(OperatorTaker::PowerBase(exponent))
    }

    fn branches(yes: Node<'a, Expression>, no: Node<'a, Expression>) -> Pending<H> {
        of_operator(OperatorTaker::Branches(yes, no))
    }

    fn yield_value() -> Pending<H> {
        of_generator(GeneratorTaker::YieldValue)
    }

    fn delegating() -> Pending<H> {
        of_generator(GeneratorTaker::Delegating)
    }

    fn throwing() -> Pending<H> {
        of_statement(StatementTaker::Throwing)
    }

    fn subject(cases: Nodes<'a, Case>) -> Pending<H> {
        of_statement(StatementTaker::Subject(cases))
    }

    fn labelling(label: BorrowedName<'a>) -> Pending<H> {
        of_body(BodyTaker::Labelling(label))
    }

    fn name_given(name: BorrowedName<'a>) -> Pending<H> {
        of_statement(StatementTaker::NameGiven(name))
    }

    fn statements_rest(statements: Statements<'a>) -> Pending<H> {
        of_end(EndTaker::StatementsRest(statements))
    }

    fn items_rest(items: Nodes<'a, Item>) -> Pending<H> {
        of_end(EndTaker::ItemsRest(items))
    }
}
