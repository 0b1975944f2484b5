//! Operators, assignments and groups that begin (ECMA-262, 6th edition, 12.4 to 12.15), expressions whatever they are, and references
//! where they are wanted (6.2.3).

ghost use Rattle.std.specs.Prelude.{◌≡◌};
ghost use Rattle.es6_ast.specs.declared.tree.Expression.{out-Expression};
ghost use Rattle.source_begins.specs.Begun.{expression_begun, operator_begun, other_begun};
ghost use Rattle.source_meaning.specs.Nodes.{begin, begin_unary, begin_yield, refer, refer_open};
ghost use Rattle.source_moves.specs.Moves.{Steps};
ghost use Rattle.source_moves.specs.Seen.{state_of};

use crate::expressions::{begin_access, begin_closure, begin_primary, begin_super, super_member};
use crate::pending::BeginWork;
use es_value::Value;
use es6_ast::{Expression, UnaryOperator};
use source_expressions::begin_assignment;
use source_moves::{Move, Moved, at_node, begin, impossible, push, refer};
use source_state::{BorrowedName, Control, Node, Nodes, Reference, State};
use source_takers::{ExpressionNode, OperatorNode, OtherNode, expression_node};
use std::alloc::Global;

/// What is deleted is no value (12.5.4).
fn begin_unary<'a, W: BeginWork<'a>>(
    x: Node<'a, Expression>,
    operator: UnaryOperator,
    st: &mut State<'a, W>,
) -> Moved<'a>
    ensures { Steps W.seen result st.new (begin_unary x.entry (state_of W.seen st.old) operator) }
{
    match operator {
        UnaryOperator::Delete => refer(W::deleting(), x, st),
        other => begin(W::unary_value(other), x, st),
    }
}

/// An operator begins.
fn begin_operator<'a, W: BeginWork<'a>>(node: OperatorNode<'a>, st: &mut State<'a, W>) -> Moved<'a>
    ensures { Steps W.seen result st.new (operator_begun node.entry (state_of W.seen st.old)) }
{
    match node {
        OperatorNode::Update(_, operator, target) => {
            refer(W::update_reference(operator), target, st)
        }
        OperatorNode::Unary(_, operator, operand) => begin_unary(operand, operator, st),
        OperatorNode::Power(_, base, exponent) => begin(W::power_base(exponent), base, st),
        OperatorNode::Binary(_, first, rest) => begin(W::operands(rest), first, st),
        OperatorNode::Conditional(_, test, yes, no) => begin(W::branches(yes, no), test, st),
        OperatorNode::Sequence(_, first, rest) => begin(W::sequence_rest(rest), first, st),
    }
}

/// `yield` (14.4.14).
fn begin_yield<'a, W: BeginWork<'a>>(
    x: Option<Node<'a, Expression>>,
    st: &mut State<'a, W>,
) -> Moved<'a>
    ensures { Steps W.seen result st.new (begin_yield (state_of W.seen st.old) x.entry) }
{
    match x {
        None => {
            push(st, W::yield_value())?;
            Ok(Move::give(Value::Undefined))
        }
        Some(x) => begin(W::yield_value(), x, st),
    }
}

/// An assignment, a `yield` or a group begins.
fn begin_other<'a, W: BeginWork<'a>>(node: OtherNode<'a>, st: &mut State<'a, W>) -> Moved<'a>
    ensures { Steps W.seen result st.new (other_begun node.entry (state_of W.seen st.old)) }
{
    match node {
        OtherNode::Assign(_, operator, target, x) => {
            begin_assignment(operator, target.get(), x, st)
        }
        OtherNode::Yield(_, x) => begin_yield(x, st),
        OtherNode::Delegate(_, x) => begin(W::delegating(), x, st),
        OtherNode::Group(_, held) => Ok(Move::Goes(Control::Begin(held))),
        OtherNode::Cover(..) => impossible(st),
    }
}

/// An expression that is taken apart begins.
fn begin_open<'a, W: BeginWork<'a>>(
    alloc: Global,
    node: ExpressionNode<'a>,
    st: &mut State<'a, W>,
) -> Moved<'a>
    ensures { Steps W.seen result st.new (expression_begun node.entry (state_of W.seen st.old)) }
{
    match node {
        ExpressionNode::Primary(node) => begin_primary(alloc, node, st),
        ExpressionNode::Closure(node) => begin_closure(alloc, node, st),
        ExpressionNode::Access(node) => begin_access(alloc, node, st),
        ExpressionNode::Operator(node) => begin_operator(node, st),
        ExpressionNode::Other(node) => begin_other(node, st),
    }
}

/// An expression begins.
pub fn begin_expression<'a, W: BeginWork<'a>>(
    alloc: Global,
    x: Node<'a, Expression>,
    st: &mut State<'a, W>,
) -> Moved<'a>
    ensures { Steps W.seen result st.new (begin x.entry (state_of W.seen st.old)) }
{
    let x = x.get();
    at_node(x.span().begin, st);
    begin_open(alloc, expression_node(x), st)
}

/// A reference is wanted; of what is none its value is.
fn refer_open<'a, W: BeginWork<'a>>(
    alloc: Global,
    x: &'a Expression,
    st: &mut State<'a, W>,
) -> Moved<'a>
    ensures { Steps W.seen result st.new (refer_open x.now (state_of W.seen st.old) (out-Expression x.now)) }
{
    match x {
        Expression::Name { name, .. } => Ok(Move::refer(Reference::OfName(BorrowedName::of(
            name.bytes(),
        )))),
        Expression::Chain { head, links, .. } => {
            refer(W::links(true, Nodes::of(links)), Node::of(head.get()), st)
        }
        Expression::SuperMember { name, .. } => super_member(alloc, true, name, st),
        Expression::SuperIndex { index, .. } => begin_super(alloc, true, Node::of(index.get()), st),
        Expression::Group { held, .. } => Ok(Move::Goes(Control::Refer(Node::of(held.get())))),
        _ => begin_expression(alloc, Node::of(x), st),
    }
}

/// A reference to what an expression names begins.
pub fn refer_expression<'a, W: BeginWork<'a>>(
    alloc: Global,
    x: Node<'a, Expression>,
    st: &mut State<'a, W>,
) -> Moved<'a>
    ensures { Steps W.seen result st.new (refer x.entry (state_of W.seen st.old)) }
{
    let x = x.get();
    at_node(x.span().begin, st);
    refer_open(alloc, x, st)
}
