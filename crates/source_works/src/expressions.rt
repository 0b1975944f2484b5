//! What is pending in expressions.

use crate::holds::Holds;
use crate::pending::{Pending, of_assign, of_class, of_literal, of_operator, of_target};
use es_value::{Str, Value};
use es6_ast::{
    AssignOperator, BinaryOperator, Expression, Operand, Pattern, TemplatePart, UpdateOperator,
};
use source_expressions::ExpressionWork;
use source_state::{BorrowedText, Node, Nodes, Reference};
use source_takers::{AssignTaker, ClassTaker, LiteralTaker, OperatorTaker, TargetTaker};

#[tactic(auto, unfolding(source_takers::specs::Takers::literal_work, source_takers::specs::Takers::assign_work, source_takers::specs::Takers::operator_work, source_takers::specs::Takers::target_work, source_takers::specs::Takers::class_work))]
impl<'a, H: Holds<'a>> ExpressionWork<'a> for Pending<H> {
    fn template_value(
        text: Str,
        after: BorrowedText<'a>,
        rest: Nodes<'a, TemplatePart>,
    ) -> Pending<H> {
        of_literal(LiteralTaker::TemplateValue(text, after, rest))
    }

    fn template_text(
        text: Str,
        after: BorrowedText<'a>,
        rest: Nodes<'a, TemplatePart>,
    ) -> Pending<H> {
        of_literal(LiteralTaker::TemplateText(text, after, rest))
    }

    fn update_old(operator: UpdateOperator, reference: Reference<'a>) -> Pending<H> {
        of_assign(AssignTaker::UpdateOld(operator, reference))
    }

    fn update_number(operator: UpdateOperator, reference: Reference<'a>) -> Pending<H> {
        of_assign(AssignTaker::UpdateNumber(operator, reference))
    }

    fn operands(rest: Nodes<'a, Operand>) -> Pending<H> {
        of_operator(OperatorTaker::Operands(rest))
    }

    fn operand_right(
        left: Value,
        operator: BinaryOperator,
        rest: Nodes<'a, Operand>,
    ) -> Pending<H> {
        of_operator(OperatorTaker::OperandRight(left, operator, rest))
    }

    fn sequence_rest(rest: Nodes<'a, Expression>) -> Pending<H> {
        of_operator(OperatorTaker::SequenceRest(rest))
    }

    fn assign_reference(operator: AssignOperator, value: Node<'a, Expression>) -> Pending<H> {
        of_target(TargetTaker::AssignReference(operator, value))
    }

    fn assign_old(
        operator: AssignOperator,
        reference: Reference<'a>,
        value: Node<'a, Expression>,
    ) -> Pending<H> {
        of_assign(AssignTaker::AssignOld(operator, reference, value))
    }

    fn assign_value(reference: Reference<'a>) -> Pending<H> {
        of_assign(AssignTaker::AssignValue(reference))
    }

    fn assign_pattern(pattern: Node<'a, Pattern>) -> Pending<H> {
        of_assign(AssignTaker::AssignPattern(pattern))
    }

    fn super_keyed(wanted: bool) -> Pending<H> {
        of_class(ClassTaker::SuperKeyed(wanted))
    }
}
