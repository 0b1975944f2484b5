//! What an expression is, in small enums by area: one function matches on all kinds of nodes.

ghost use Rattle.std.specs.Prelude.{◌≡◌};
ghost use Rattle.es6_ast.specs.declared.tree.Expression.{out-Expression};
ghost use Rattle.source_takers.specs.ExpressionNodes.{expression_layer};

use es_text::Span;
use es6_ast::{
    Argument, Arrow, AssignOperator, Class, Element, Expression, Function, Identifier, Link,
    Literal, Operand, Pattern, Property, Rest, Template, UnaryOperator, UpdateOperator,
};
use source_state::{BorrowedName, Node, Nodes};
use sqlite_items::{Boxed, Items};

/// Names, literals and what is spelled in brackets and braces (ECMA-262, 6th edition, 12.2), and `new.target` (12.3.8).
#[derive(Drop)]
pub enum PrimaryNode<'a> {
    This(Span),
    Name(Span, BorrowedName<'a>),
    Literal(Span, Node<'a, Literal>),
    Template(Node<'a, Template>),
    ArrayList(Span, Node<'a, Items<Element>>, bool),
    ObjectList(Span, Nodes<'a, Property>),
    NewTarget(Span),
}

/// Functions and classes (14).
#[derive(Drop)]
pub enum ClosureNode<'a> {
    Function(Node<'a, Function>),
    Arrow(Node<'a, Arrow>),
    Class(Node<'a, Class>),
}

/// Accesses and calls (12.3).
#[derive(Drop)]
pub enum AccessNode<'a> {
    Chain(Span, Node<'a, Expression>, Nodes<'a, Link>),
    SuperMember(Span, Node<'a, Identifier>),
    SuperIndex(Span, Node<'a, Expression>),
    SuperCall(Span, Nodes<'a, Argument>),
    New(Span, Node<'a, Expression>, Nodes<'a, Argument>),
}

/// Operators (12.4 to 12.13, 12.15).
#[derive(Drop)]
pub enum OperatorNode<'a> {
    Update(Span, UpdateOperator, Node<'a, Expression>),
    Unary(Span, UnaryOperator, Node<'a, Expression>),
    Power(Span, Node<'a, Expression>, Node<'a, Expression>),
    Binary(Span, Node<'a, Expression>, Nodes<'a, Operand>),
    Conditional(Span, Node<'a, Expression>, Node<'a, Expression>, Node<'a, Expression>),
    Sequence(Span, Node<'a, Expression>, Nodes<'a, Expression>),
}

/// Assignments, `yield`, and parentheses (12.2.10, 12.14, 14.4).
#[derive(Drop)]
pub enum OtherNode<'a> {
    Assign(Span, AssignOperator, Node<'a, Pattern>, Node<'a, Expression>),
    Yield(Span, Option<Node<'a, Expression>>),
    Delegate(Span, Node<'a, Expression>),
    Group(Span, Node<'a, Expression>),
    Cover(Span, Node<'a, Option<Boxed<Expression>>>, Node<'a, Option<Rest>>),
}

/// An expression, whose parts are borrowed.
#[derive(Drop)]
pub enum ExpressionNode<'a> {
    Primary(PrimaryNode<'a>),
    Closure(ClosureNode<'a>),
    Access(AccessNode<'a>),
    Operator(OperatorNode<'a>),
    Other(OtherNode<'a>),
}

/// An optional node that is boxed.
fn optional<'a, T>(node: &'a Option<Boxed<T>>) -> Option<Node<'a, T>>
    ensures { result ≡ node.now }
{
    match node {
        None => None,
        Some(node) => Some(Node::of(node.get())),
    }
}

/// Takes an expression apart.
pub fn expression_node<'a>(node: &'a Expression) -> ExpressionNode<'a>
    ensures { expression_layer result ≡ out-Expression node.now }
{
    match node {
        Expression::This { span } => ExpressionNode::Primary(PrimaryNode::This(*span)),
        Expression::Name { span, name } => ExpressionNode::Primary(PrimaryNode::Name(
            *span,
            BorrowedName::of(name.bytes()),
        )),
        Expression::Literal { span, literal } => ExpressionNode::Primary(PrimaryNode::Literal(
            *span,
            Node::of(literal),
        )),
        Expression::Template(template) => ExpressionNode::Primary(PrimaryNode::Template(Node::of(
            template,
        ))),
        Expression::ArrayList {
            span,
            elements,
            ends_in_comma,
        } => ExpressionNode::Primary(PrimaryNode::ArrayList(
            *span,
            Node::of(elements),
            *ends_in_comma,
        )),
        Expression::ObjectList { span, properties } => ExpressionNode::Primary(
            PrimaryNode::ObjectList(*span, Nodes::of(properties)),
        ),
        Expression::NewTarget { span } => ExpressionNode::Primary(PrimaryNode::NewTarget(*span)),
        Expression::Function(function) => ExpressionNode::Closure(ClosureNode::Function(Node::of(
            function.get(),
        ))),
        Expression::Arrow(arrow) => ExpressionNode::Closure(ClosureNode::Arrow(Node::of(
            arrow.get(),
        ))),
        Expression::Class(class) => ExpressionNode::Closure(ClosureNode::Class(Node::of(
            class.get(),
        ))),
        Expression::Chain { span, head, links } => ExpressionNode::Access(AccessNode::Chain(
            *span,
            Node::of(head.get()),
            Nodes::of(links),
        )),
        Expression::SuperMember { span, name } => ExpressionNode::Access(AccessNode::SuperMember(
            *span,
            Node::of(name),
        )),
        Expression::SuperIndex { span, index } => ExpressionNode::Access(AccessNode::SuperIndex(
            *span,
            Node::of(index.get()),
        )),
        Expression::SuperCall { span, arguments } => ExpressionNode::Access(AccessNode::SuperCall(
            *span,
            Nodes::of(arguments),
        )),
        Expression::New {
            span,
            callee,
            arguments,
        } => ExpressionNode::Access(AccessNode::New(
            *span,
            Node::of(callee.get()),
            Nodes::of(arguments),
        )),
        Expression::Update {
            span,
            operator,
            target,
        } => ExpressionNode::Operator(OperatorNode::Update(
            *span,
            *operator,
            Node::of(target.get()),
        )),
        Expression::Unary {
            span,
            operator,
            operand,
        } => ExpressionNode::Operator(OperatorNode::Unary(
            *span,
            *operator,
            Node::of(operand.get()),
        )),
        Expression::Power {
            span,
            base,
            exponent,
        } => ExpressionNode::Operator(OperatorNode::Power(
            *span,
            Node::of(base.get()),
            Node::of(exponent.get()),
        )),
        Expression::Binary { span, first, rest } => ExpressionNode::Operator(OperatorNode::Binary(
            *span,
            Node::of(first.get()),
            Nodes::of(rest),
        )),
        Expression::Conditional {
            span,
            test,
            yes,
            no,
        } => ExpressionNode::Operator(OperatorNode::Conditional(
            *span,
            Node::of(test.get()),
            Node::of(yes.get()),
            Node::of(no.get()),
        )),
        Expression::Sequence { span, first, rest } => ExpressionNode::Operator(
            OperatorNode::Sequence(*span, Node::of(first.get()), Nodes::of(rest)),
        ),
        Expression::Assign {
            span,
            operator,
            target,
            value,
        } => ExpressionNode::Other(OtherNode::Assign(
            *span,
            *operator,
            Node::of(target),
            Node::of(value.get()),
        )),
        Expression::Yield { span, value } => ExpressionNode::Other(OtherNode::Yield(
            *span,
            optional(value),
        )),
        Expression::Delegate { span, value } => ExpressionNode::Other(OtherNode::Delegate(
            *span,
            Node::of(value.get()),
        )),
        Expression::Group { span, held } => ExpressionNode::Other(OtherNode::Group(
            *span,
            Node::of(held.get()),
        )),
        Expression::Cover { span, held, rest } => ExpressionNode::Other(OtherNode::Cover(
            *span,
            Node::of(held),
            Node::of(rest),
        )),
    }
}
