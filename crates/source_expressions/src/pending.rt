//! The pending work of expressions.

ghost use Rattle.std.specs.Prelude.{◌≡◌};

use es_value::{Str, Value};
use es6_ast::{
    AssignOperator, BinaryOperator, Expression, Operand, Pattern, TemplatePart, UpdateOperator,
};
use source_moves::PendingWork;
use source_state::{BorrowedText, Node, Nodes, Reference};

/// What is pending in an expression (ECMA-262, 6th edition, 12).
pub trait ExpressionWork<'a>: PendingWork<'a> {
    ghost use Rattle.source_state.specs.declared.work.Work.TheVariants as work;

    /// A value of a template, behind the text so far and before the stretch that follows (12.2.9).
    fn template_value(text: Str, after: BorrowedText<'a>, rest: Nodes<'a, TemplatePart>) -> Self
        ensures { Self.seen result ≡ work.TemplateValue text after.entry rest.entry };

    /// The text of that value.
    fn template_text(text: Str, after: BorrowedText<'a>, rest: Nodes<'a, TemplatePart>) -> Self
        ensures { Self.seen result ≡ work.TemplateText text after.entry rest.entry };

    /// The old value of `++` and `--` (12.4, 12.5).
    fn update_old(operator: UpdateOperator, reference: Reference<'a>) -> Self
        ensures { Self.seen result ≡ work.UpdateOld operator reference.entry };

    /// The number that it is.
    fn update_number(operator: UpdateOperator, reference: Reference<'a>) -> Self
        ensures { Self.seen result ≡ work.UpdateNumber operator reference.entry };

    /// The operands that follow a value (12.6 to 12.12).
    fn operands(rest: Nodes<'a, Operand>) -> Self
        ensures { Self.seen result ≡ work.Operands rest.entry };

    /// The right side of an operator.
    fn operand_right(left: Value, operator: BinaryOperator, rest: Nodes<'a, Operand>) -> Self
        ensures { Self.seen result ≡ work.OperandRight left operator rest.entry };

    /// The expressions that follow in a sequence (12.15).
    fn sequence_rest(rest: Nodes<'a, Expression>) -> Self
        ensures { Self.seen result ≡ work.SequenceRest rest.entry };

    /// What an assignment's target refers to (12.14).
    fn assign_reference(operator: AssignOperator, value: Node<'a, Expression>) -> Self
        ensures { Self.seen result ≡ work.AssignReference operator value.entry };

    /// The old value of an assignment with an operator.
    fn assign_old(
        operator: AssignOperator,
        reference: Reference<'a>,
        value: Node<'a, Expression>,
    ) -> Self
        ensures { Self.seen result ≡ work.AssignOld operator reference.entry value.entry };

    /// The value that an assignment writes.
    fn assign_value(reference: Reference<'a>) -> Self
        ensures { Self.seen result ≡ work.AssignValue reference.entry };

    /// The value that a pattern takes apart.
    fn assign_pattern(pattern: Node<'a, Pattern>) -> Self
        ensures { Self.seen result ≡ work.AssignPattern pattern.entry };

    /// The text of a key in brackets behind `super`, and whether a reference is wanted (12.3.5).
    fn super_keyed(wanted: bool) -> Self
        ensures { Self.seen result ≡ work.SuperKeyed wanted };
}
