//! The nodes. Each has the span of its text, without parentheses round it, and its children in text order.

use crate::operators::{
    AssignOperator5, BinaryOperator5, Key5, Literal5, UnaryOperator5, UpdateOperator5,
};
use es_outside::Site;
use es_text::Span;
use shared_text::Name;
use sqlite_items::{Boxed, Items};

/// A script: its statements, of which the first is the directive of strict code (ECMA-262, 5.1 edition, 14).
#[derive(Drop)]
pub struct Script {
    pub span: Span,
    pub statements: Items<Stat5>,
}

/// A name that is bound, or that labels (7.6).
#[derive(Drop)]
pub struct Identifier5 {
    pub span: Span,
    pub name: Name,
}

/// A statement, or a declaration of a function (12, 13).
#[cycle(tree)]
#[derive(Drop)]
pub enum Stat5 {
    /// 12.2, with at least one declaration
    Var {
        span: Span,
        declared: Items<Declared5>,
    },
    /// 13, whose function has a name
    FunctionDeclaration(Boxed<Function5>),
    Block(Block5),
    Empty {
        span: Span,
    },
    /// 12.4, and the directives of 14.1
    Expression {
        span: Span,
        expression: Expr5,
    },
    /// 12.5: a chain of `else if` is a list, so that `otherwise` is no `if` itself
    If {
        span: Span,
        first: Condition5,
        more: Items<Condition5>,
        otherwise: Option<Boxed<Stat5>>,
    },
    DoWhile {
        span: Span,
        body: Boxed<Stat5>,
        test: Expr5,
    },
    While {
        span: Span,
        test: Expr5,
        body: Boxed<Stat5>,
    },
    For {
        span: Span,
        first: ForFirst5,
        test: Option<Expr5>,
        update: Option<Expr5>,
        body: Boxed<Stat5>,
    },
    Continue {
        span: Span,
        label: Option<Identifier5>,
    },
    Break {
        span: Span,
        label: Option<Identifier5>,
    },
    Return {
        span: Span,
        value: Option<Expr5>,
    },
    Switch {
        span: Span,
        subject: Expr5,
        cases: Items<Case5>,
    },
    Labelled {
        span: Span,
        label: Identifier5,
        body: Boxed<Stat5>,
    },
    Throw {
        span: Span,
        value: Expr5,
    },
    /// 12.14, with a catch, a finally or both
    Try {
        span: Span,
        block: Block5,
        catch: Option<Catch5>,
        finally: Option<Block5>,
    },
    Debugger {
        span: Span,
    },
}

/// A variable, and what it is initialized with (12.2).
#[cycle(tree)]
#[derive(Drop)]
pub struct Declared5 {
    pub span: Span,
    pub name: Identifier5,
    pub init: Option<Expr5>,
}

/// Statements in braces (12.1).
#[cycle(tree)]
#[derive(Drop)]
pub struct Block5 {
    pub span: Span,
    pub statements: Items<Stat5>,
}

/// A test with the statement under it: from its `if` to the statement's end (12.5).
#[cycle(tree)]
#[derive(Drop)]
pub struct Condition5 {
    pub span: Span,
    pub test: Expr5,
    pub body: Boxed<Stat5>,
}

/// What stands before the first semicolon of a for statement (12.6.3).
#[cycle(tree)]
#[derive(Drop)]
pub enum ForFirst5 {
    NoFirst,
    FirstVar(Items<Declared5>),
    FirstExpression(Expr5),
}

/// A clause of a switch statement (12.11). The default clause has no test.
#[cycle(tree)]
#[derive(Drop)]
pub struct Case5 {
    pub span: Span,
    pub test: Option<Expr5>,
    pub body: Items<Stat5>,
}

/// 12.14
#[cycle(tree)]
#[derive(Drop)]
pub struct Catch5 {
    pub span: Span,
    pub parameter: Identifier5,
    pub body: Block5,
}

/// A function as a declaration, an expression, or an accessor of an object literal (13, 11.1.5).
#[cycle(tree)]
#[derive(Drop)]
pub struct Function5 {
    pub span: Span,
    pub name: Option<Identifier5>,
    pub parameters: Items<Identifier5>,
    pub body: Items<Stat5>,
}

/// An expression (11).
#[cycle(tree)]
#[derive(Drop)]
pub enum Expr5 {
    This {
        span: Span,
    },
    Name {
        span: Span,
        name: Name,
    },
    Literal {
        span: Span,
        literal: Literal5,
    },
    ArrayList {
        span: Span,
        elements: Items<Element5>,
    },
    ObjectList {
        span: Span,
        properties: Items<Property5>,
    },
    Function(Boxed<Function5>),
    /// 11.2: what accesses and calls begin with, and at least one of these from left to right
    Chain {
        span: Span,
        head: Boxed<Expr5>,
        links: Items<Link5>,
    },
    New {
        span: Span,
        callee: Boxed<Expr5>,
        arguments: Items<Expr5>,
    },
    Update {
        span: Span,
        operator: UpdateOperator5,
        target: Boxed<Expr5>,
    },
    Unary {
        span: Span,
        operator: UnaryOperator5,
        operand: Boxed<Expr5>,
    },
    /// operands with operators of one precedence between them, from left to right
    Binary {
        span: Span,
        first: Boxed<Expr5>,
        rest: Items<Operand5>,
    },
    Conditional {
        span: Span,
        test: Boxed<Expr5>,
        yes: Boxed<Expr5>,
        no: Boxed<Expr5>,
    },
    Assign {
        span: Span,
        operator: AssignOperator5,
        target: Boxed<Expr5>,
        value: Boxed<Expr5>,
    },
    /// 11.14, with at least two parts
    Sequence {
        span: Span,
        first: Boxed<Expr5>,
        rest: Items<Expr5>,
    },
}

/// An element of an array literal, or a hole (11.1.4).
#[cycle(tree)]
#[derive(Drop)]
pub enum Element5 {
    Hole,
    Element(Expr5),
}

/// A property of an object literal (11.1.5). A getter's function has no parameter, a setter's has one, and neither has a
/// name.
#[cycle(tree)]
#[derive(Drop)]
pub enum Property5 {
    Plain {
        span: Span,
        key: PlacedKey5,
        value: Expr5,
    },
    Getter {
        span: Span,
        key: PlacedKey5,
        function: Boxed<Function5>,
    },
    Setter {
        span: Span,
        key: PlacedKey5,
        function: Boxed<Function5>,
    },
}

/// A property name with its place.
#[derive(Drop)]
pub struct PlacedKey5 {
    pub span: Span,
    pub key: Key5,
}

/// An access or a call, from its `.`, `[` or `(` to its end (11.2).
#[cycle(tree)]
#[derive(Drop)]
pub enum Link5 {
    Member {
        span: Span,
        name: Name,
    },
    Index {
        span: Span,
        index: Expr5,
    },
    /// with the place of the source from which the call comes
    Call {
        span: Span,
        arguments: Items<Expr5>,
        site: Option<Site>,
    },
}

/// An operator and what follows it (11.5 to 11.11).
#[cycle(tree)]
#[derive(Drop)]
pub struct Operand5 {
    pub operator: BinaryOperator5,
    pub value: Expr5,
}
