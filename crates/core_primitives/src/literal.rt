//! What stands along an expression.

ghost use Rattle.std.specs.Prelude.{◌≡◌};
ghost use Rattle.core_primitives.specs.Used.{calls, element, literal_of, no_literal, of_op, property};

use crate::used::UsedPrimitives;
use core_ast::{CoreHead, CoreOp, Primitive};

/// What a script writes the current value of an expression as.
#[derive(Clone, Copy, Debug, PartialEq, Eq)]
pub enum Literal {
    /// an array or a list of arguments, and nothing but elements behind its head
    ListLiteral,
    /// an object, and nothing but properties behind its head
    ObjectLiteral,
    NoLiteral,
}

/// The primitives that were met, and what the current value is.
#[derive(Clone, Copy, Debug, PartialEq, Eq)]
pub struct Met {
    pub literal: Literal,
    pub used: UsedPrimitives,
}

impl Literal {
    /// What an expression is that has no links.
    #[tactic(auto, unfolding(crate::specs::Used::literal_of))]
    pub(crate) fn of_head(head: &CoreHead) -> Literal
        ensures { result ≡ literal_of head.now }
    {
        match head {
            CoreHead::ArrayList | CoreHead::ArgumentList => Literal::ListLiteral,
            CoreHead::ObjectList => Literal::ObjectLiteral,
            _ => Literal::NoLiteral,
        }
    }
}

impl Met {
    /// A value that is no literal, and what was met.
    pub(crate) fn value(used: UsedPrimitives) -> Met
        ensures { result ≡ no_literal used }
    {
        Met {
            literal: Literal::NoLiteral,
            used,
        }
    }

    fn calls(self, primitive: Primitive) -> Met
        ensures { result ≡ calls primitive self }
    {
        Met::value(self.used.with(primitive))
    }

    #[tactic(auto, unfolding(crate::specs::Used::element))]
    fn element(self) -> Met
        ensures { result ≡ element self.literal self }
    {
        match self.literal {
            Literal::ListLiteral => self,
            _ => self.calls(Primitive::SpreadList),
        }
    }

    #[tactic(auto, unfolding(crate::specs::Used::property))]
    fn property(self) -> Met
        ensures { result ≡ property self.literal self }
    {
        match self.literal {
            Literal::ObjectLiteral => self,
            _ => self.calls(Primitive::MethodPut),
        }
    }

    /// Behind an operation.
    #[tactic(auto, unfolding(crate::specs::Used::of_op))]
    pub(crate) fn behind(self, op: &CoreOp) -> Met
        ensures { result ≡ of_op op.now self }
    {
        match op {
            CoreOp::Primitive(primitive) => self.calls(*primitive),
            CoreOp::Element => self.element(),
            CoreOp::Hole => self.calls(Primitive::SpreadList),
            CoreOp::Define(_) => self.property(),
            CoreOp::Getter(_) | CoreOp::Setter(_) => self.calls(Primitive::AccessorPut),
            CoreOp::NewList => self.calls(Primitive::Construct),
            _ => Met::value(self.used),
        }
    }
}
