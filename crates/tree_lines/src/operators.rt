//! Expressions with operators, arrow functions, `yield` and sequences (ECMA-262, 6th edition, 12.4 to 12.15, 14.2, 14.4).

use crate::nodes::Nodes;
use crate::words::{assign_word, binary_word, unary_word, update_word};
use es6_ast::{Arrow, ArrowBody, Expression, Operand};

impl<'a> Nodes<'a> {
    /// Expressions with an operator that assigns nothing (12.4 to 12.12), or else those of the levels below them.
    pub(crate) fn with_operators(&mut self, expression: &'a Expression) {
        match expression {
            Expression::Update {
                span,
                operator,
                target,
            } => {
                self.text.node_with("Update", *span, update_word(*operator));
                self.expression(target.get());
            }
            Expression::Unary {
                span,
                operator,
                operand,
            } => {
                self.text.node_with("Unary", *span, unary_word(*operator));
                self.expression(operand.get());
            }
            Expression::Power {
                span,
                base,
                exponent,
            } => {
                self.text.node("Power", *span);
                self.expression(base.get());
                self.expression(exponent.get());
            }
            Expression::Binary { span, first, rest } => {
                self.text.node("Binary", *span);
                self.expression(first.get());
                self.operands(rest.as_slice());
            }
            other => self.assignment(other),
        }
    }

    fn operands(&mut self, operands: &'a [Operand]) {
        for operand in operands {
            self.text.operator(binary_word(operand.operator));
            self.expression(&operand.value);
        }
    }

    /// Conditional expressions, arrow functions, assignments, `yield` and sequences.
    fn assignment(&mut self, expression: &'a Expression) {
        match expression {
            Expression::Conditional {
                span,
                test,
                yes,
                no,
            } => {
                self.text.node("Conditional", *span);
                self.expression(test.get());
                self.expression(yes.get());
                self.expression(no.get());
            }
            Expression::Arrow(arrow) => self.arrow(arrow.get()),
            Expression::Assign {
                span,
                operator,
                target,
                value,
            } => {
                self.text.node_with("Assign", *span, assign_word(*operator));
                self.pattern(target);
                self.expression(value.get());
            }
            Expression::Yield { span, value } => {
                self.text.node("Yield", *span);
                self.held(value);
            }
            Expression::Delegate { span, value } => {
                self.text.node("Delegate", *span);
                self.expression(value.get());
            }
            Expression::Sequence { span, first, rest } => {
                self.text.node("Sequence", *span);
                self.expression(first.get());
                self.expressions(rest.as_slice());
            }
            _ => (),
        }
    }

    fn expressions(&mut self, expressions: &'a [Expression]) {
        for expression in expressions {
            self.expression(expression);
        }
    }

    fn arrow(&mut self, arrow: &'a Arrow) {
        self.text.node("Arrow", arrow.span);
        self.parameters(arrow.parameters.as_slice());
        match &arrow.body {
            ArrowBody::ValueBody(value) => self.expression(value.get()),
            ArrowBody::BlockBody(block) => self.block(block),
        }
    }
}
