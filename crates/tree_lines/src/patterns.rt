//! Patterns, their parts, and parameters.

use crate::nodes::Nodes;
use es6_ast::{ArrayPart, ObjectPart, Parameter, Part, Pattern};

impl<'a> Nodes<'a> {
    /// A pattern, whose parts are left. A target by itself is its expression.
    pub(crate) fn show_pattern(&mut self, pattern: &'a Pattern) {
        match pattern {
            Pattern::Target(target) => self.expression(target.get()),
            Pattern::ArrayPattern { span, parts } => {
                self.text.node("ArrayPattern", *span);
                self.array_parts(parts.as_slice());
            }
            Pattern::ObjectPattern { span, parts } => {
                self.text.node("ObjectPattern", *span);
                self.object_parts(parts.as_slice());
            }
        }
    }

    /// A pattern with its default.
    fn part(&mut self, part: &'a Part) {
        self.text.node("Part", part.span);
        self.pattern(&part.pattern);
        self.value(&part.default);
    }

    pub(crate) fn parts(&mut self, parts: &'a [Part]) {
        for part in parts {
            self.part(part);
        }
    }

    fn array_parts(&mut self, parts: &'a [ArrayPart]) {
        for part in parts {
            match part {
                ArrayPart::SkippedPart => self.text.word("SkippedPart"),
                ArrayPart::SinglePart(part) => self.part(part),
                ArrayPart::RestPart { span, pattern } => {
                    self.text.node("RestPart", *span);
                    self.pattern(pattern);
                }
            }
        }
    }

    fn object_parts(&mut self, parts: &'a [ObjectPart]) {
        for part in parts {
            match part {
                ObjectPart::NamedPart(part) => self.part(part),
                ObjectPart::KeyedPart { span, key, part } => {
                    self.text.node("KeyedPart", *span);
                    self.key(key);
                    self.part(part);
                }
            }
        }
    }

    /// The parameters of a function.
    pub(crate) fn parameters(&mut self, parameters: &'a [Parameter]) {
        for parameter in parameters {
            match parameter {
                Parameter::SingleParameter(part) => self.part(part),
                Parameter::RestParameter { span, pattern } => {
                    self.text.node("RestParameter", *span);
                    self.pattern(pattern);
                }
            }
        }
    }
}
