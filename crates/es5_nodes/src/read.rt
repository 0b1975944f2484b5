//! What a reader of expressions gives.

ghost use Rattle.std.specs.Prelude.{◌≡◌, IfOk, Some, None};
ghost use Rattle.es5_reading.specs.Statements.{label_of};
ghost use Rattle.es5_reading.specs.Parser.{Bare, is_left};
ghost use Rattle.es5_reading.specs.Expressions.{left, other};

use es_text::Span;
use es5_ast::{Expr5, Identifier5};
use shared_text::Name;
use sqlite_items::Boxed;
use std::alloc::{AllocError, Global};
use std::marker::Model;

/// What an expression is besides its tree: an identifier and nothing round it, another left-hand-side expression (ECMA-262,
/// 5.1 edition, 11.2), or none of these.
#[derive(Clone, Copy, Debug, PartialEq, Eq)]
pub enum Shape {
    Bare,
    LeftHandSide,
    Other,
}

/// An expression that was read.
#[derive(Drop)]
pub struct Read {
    value: Boxed<Expr5>,
    shape: Shape,
}

impl Model for Read {
    ghost use Rattle.es5_ast.specs.contracts.tree.Expr5 as expression;
    ghost use Rattle.es5_nodes.specs.Shapes.{shape5};
    ghost use Rattle.es5_reading.specs.Parser.{Read5};
    ghost use Rattle.std.specs.Coded.{codes};

    ghost Value = { Read5 };

    ghost coded = { Prim.hlevel (codes, expression.the_row.coded) };

    ghost view = { λ r. record { value = r.value; shape = shape5 r.shape } };
}

impl Read {
    /// An identifier with nothing round it.
    #[inline(never)]
    pub fn bare(alloc: Global, span: Span, name: Name) -> Result<Read, AllocError>
        ensures { IfOk result (λ x. x ≡ record { value = Expr5.Name span name; shape = Bare }) }
    {
        Ok(Read {
            value: Boxed::new(alloc, Expr5::Name { span, name })?,
            shape: Shape::Bare,
        })
    }

    /// A left-hand-side expression that is no identifier.
    pub fn left(value: Boxed<Expr5>) -> Read
        ensures { result ≡ left value }
    {
        Read {
            value,
            shape: Shape::LeftHandSide,
        }
    }

    /// An expression with an operator of its own.
    pub fn other(value: Boxed<Expr5>) -> Read
        ensures { result ≡ other value }
    {
        Read {
            value,
            shape: Shape::Other,
        }
    }

    /// Whether it is a left-hand-side expression.
    pub fn is_left(&self) -> bool
        ensures { result ≡ is_left self.now.shape }
    {
        match self.shape {
            Shape::Bare | Shape::LeftHandSide => true,
            Shape::Other => false,
        }
    }

    pub fn into_value(self) -> Boxed<Expr5>
        ensures { result ≡ self.value }
    {
        let Read { value, shape: _ } = self;
        value
    }

    /// The label that it may be (12.12).
    #[inline(never)]
    pub fn label(&self, alloc: Global) -> Result<Option<Identifier5>, AllocError>
        ensures { IfOk result (λ label. label ≡ label_of self.now.shape self.now.value) }
    {
        match self.shape {
            Shape::Bare => name_in(alloc, self.value.get()),
            Shape::LeftHandSide | Shape::Other => Ok(None),
        }
    }
}

fn name_in(alloc: Global, value: &Expr5) -> Result<Option<Identifier5>, AllocError>
    ensures { IfOk result (λ label. label ≡ label_of Bare value.now) }
{
    match value {
        Expr5::Name { span, name } => Ok(Some(Identifier5 {
            span: *span,
            name: name.copy(alloc)?,
        })),
        _ => Ok(None),
    }
}
