//! What a statement is, in small enums by area: one function matches on all kinds of statements.

ghost use Rattle.std.specs.Prelude.{◌≡◌};
ghost use Rattle.es6_ast.specs.declared.tree.Statement.{out-Statement};
ghost use Rattle.source_takers.specs.StatementNodes.{statement_layer};

use es_text::Span;
use es6_ast::{
    Block, Case, Catch, Class, Condition, Expression, ForFirst, ForTarget, Function, Identifier,
    Part, Statement, VariableKind,
};
use source_state::{Node, Nodes};
use sqlite_items::Boxed;

/// Blocks, declarations and what has no jump (ECMA-262, 6th edition, 13.2 to 13.6, 13.16, 14).
#[derive(Drop)]
pub enum SimpleNode<'a> {
    Block(Node<'a, Block>),
    Variables(Span, VariableKind, Nodes<'a, Part>),
    Empty(Span),
    Expression(Span, Node<'a, Expression>),
    If(Span, Node<'a, Condition>, Nodes<'a, Condition>, Option<Node<'a, Boxed<Statement>>>),
    Debugger(Span),
    FunctionDeclaration(Node<'a, Function>),
    ClassDeclaration(Node<'a, Class>),
}

/// Loops (13.7).
#[derive(Drop)]
pub enum LoopNode<'a> {
    DoWhile(Span, Node<'a, Boxed<Statement>>, Node<'a, Expression>),
    While(Span, Node<'a, Expression>, Node<'a, Boxed<Statement>>),
    For(
        Span,
        Node<'a, ForFirst>,
        Node<'a, Option<Boxed<Expression>>>,
        Node<'a, Option<Boxed<Expression>>>,
        Node<'a, Boxed<Statement>>,
    ),
    ForOf(Span, Node<'a, ForTarget>, Node<'a, Expression>, Node<'a, Boxed<Statement>>),
}

/// Jumps, and where they lead (13.8 to 13.15).
#[derive(Drop)]
pub enum JumpNode<'a> {
    Continue(Span, Node<'a, Option<Identifier>>),
    Break(Span, Node<'a, Option<Identifier>>),
    Return(Span, Option<Node<'a, Expression>>),
    Switch(Span, Node<'a, Expression>, Nodes<'a, Case>),
    Labelled(Span, Node<'a, Identifier>, Node<'a, Boxed<Statement>>),
    Throw(Span, Node<'a, Expression>),
    Try(Span, Node<'a, Block>, Node<'a, Option<Boxed<Catch>>>, Node<'a, Option<Block>>),
}

/// A statement, whose parts are borrowed.
#[derive(Drop)]
pub enum StatementNode<'a> {
    Simple(SimpleNode<'a>),
    Loop(LoopNode<'a>),
    Jump(JumpNode<'a>),
}

/// An optional node.
fn optional_node<'a, T>(node: &'a Option<T>) -> Option<Node<'a, T>>
    ensures { result ≡ node.now }
{
    match node {
        None => None,
        Some(node) => Some(Node::of(node)),
    }
}

/// Takes a statement apart.
pub fn statement_node<'a>(node: &'a Statement) -> StatementNode<'a>
    ensures { statement_layer result ≡ out-Statement node.now }
{
    match node {
        Statement::Block(block) => StatementNode::Simple(SimpleNode::Block(Node::of(block))),
        Statement::Variables { span, kind, parts } => StatementNode::Simple(SimpleNode::Variables(
            *span,
            *kind,
            Nodes::of(parts),
        )),
        Statement::Empty { span } => StatementNode::Simple(SimpleNode::Empty(*span)),
        Statement::Expression { span, expression } => StatementNode::Simple(SimpleNode::Expression(
            *span,
            Node::of(expression),
        )),
        Statement::If {
            span,
            first,
            more,
            otherwise,
        } => StatementNode::Simple(SimpleNode::If(
            *span,
            Node::of(first),
            Nodes::of(more),
            optional_node(otherwise),
        )),
        Statement::Debugger { span } => StatementNode::Simple(SimpleNode::Debugger(*span)),
        Statement::FunctionDeclaration(function) => StatementNode::Simple(
            SimpleNode::FunctionDeclaration(Node::of(function.get())),
        ),
        Statement::ClassDeclaration(class) => StatementNode::Simple(SimpleNode::ClassDeclaration(
            Node::of(class.get()),
        )),
        Statement::DoWhile { span, body, test } => StatementNode::Loop(LoopNode::DoWhile(
            *span,
            Node::of(body),
            Node::of(test),
        )),
        Statement::While { span, test, body } => StatementNode::Loop(LoopNode::While(
            *span,
            Node::of(test),
            Node::of(body),
        )),
        Statement::For {
            span,
            first,
            test,
            update,
            body,
        } => StatementNode::Loop(LoopNode::For(
            *span,
            Node::of(first.get()),
            Node::of(test),
            Node::of(update),
            Node::of(body),
        )),
        Statement::ForOf {
            span,
            target,
            subject,
            body,
        } => StatementNode::Loop(LoopNode::ForOf(
            *span,
            Node::of(target.get()),
            Node::of(subject),
            Node::of(body),
        )),
        Statement::Continue { span, label } => StatementNode::Jump(JumpNode::Continue(
            *span,
            Node::of(label),
        )),
        Statement::Break { span, label } => StatementNode::Jump(JumpNode::Break(
            *span,
            Node::of(label),
        )),
        Statement::Return { span, value } => StatementNode::Jump(JumpNode::Return(
            *span,
            optional_node(value),
        )),
        Statement::Switch {
            span,
            subject,
            cases,
        } => StatementNode::Jump(JumpNode::Switch(*span, Node::of(subject), Nodes::of(cases))),
        Statement::Labelled { span, label, body } => StatementNode::Jump(JumpNode::Labelled(
            *span,
            Node::of(label),
            Node::of(body),
        )),
        Statement::Throw { span, value } => StatementNode::Jump(JumpNode::Throw(
            *span,
            Node::of(value),
        )),
        Statement::Try {
            span,
            block,
            catch,
            finally,
        } => StatementNode::Jump(JumpNode::Try(
            *span,
            Node::of(block),
            Node::of(catch),
            Node::of(finally),
        )),
    }
}
