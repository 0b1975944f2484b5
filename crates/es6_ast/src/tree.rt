//! The nodes of statements, patterns and expressions. Each has the span of its text, from its first token to its last one,
//! and its children in text order.

use crate::operators::{
    AssignOperator, BinaryOperator, Literal, MethodKind, UnaryOperator, UpdateOperator,
    VariableKind,
};
use es_text::Span;
use shared_text::{Name, Units};
use sqlite_items::{Boxed, Items};

/// A name that is bound, labels, or is imported or exported (ECMA-262, 6th edition, 12.1).
#[derive(Debug, Drop)]
pub struct Identifier {
    pub span: Span,
    pub name: Name,
}

/// The rest in the parentheses of an arrow's parameters, from its `...` to its name (14.1, 14.2).
#[derive(Debug, Drop)]
pub struct Rest {
    pub span: Span,
    pub name: Identifier,
}

/// A statement or a declaration (13, 14). What makes a kind large is boxed, since each statement takes the room of the largest.
#[cycle(ast)]
#[derive(Drop)]
pub enum Statement {
    Block(Block),
    /// 13.3, with at least one part
    Variables {
        span: Span,
        kind: VariableKind,
        parts: Items<Part>,
    },
    Empty {
        span: Span,
    },
    /// 13.5
    Expression {
        span: Span,
        expression: Expression,
    },
    /// 13.6: a chain of `else if` is a list, so that `otherwise` is no `if` itself
    If {
        span: Span,
        first: Condition,
        more: Items<Condition>,
        otherwise: Option<Boxed<Statement>>,
    },
    DoWhile {
        span: Span,
        body: Boxed<Statement>,
        test: Expression,
    },
    While {
        span: Span,
        test: Expression,
        body: Boxed<Statement>,
    },
    /// 13.7.4
    For {
        span: Span,
        first: Boxed<ForFirst>,
        test: Option<Boxed<Expression>>,
        update: Option<Boxed<Expression>>,
        body: Boxed<Statement>,
    },
    /// 13.7.5
    ForOf {
        span: Span,
        target: Boxed<ForTarget>,
        subject: Expression,
        body: Boxed<Statement>,
    },
    Continue {
        span: Span,
        label: Option<Identifier>,
    },
    Break {
        span: Span,
        label: Option<Identifier>,
    },
    Return {
        span: Span,
        value: Option<Expression>,
    },
    Switch {
        span: Span,
        subject: Expression,
        cases: Items<Case>,
    },
    Labelled {
        span: Span,
        label: Identifier,
        body: Boxed<Statement>,
    },
    Throw {
        span: Span,
        value: Expression,
    },
    /// 13.15, with a catch, a finally or both
    Try {
        span: Span,
        block: Block,
        catch: Option<Boxed<Catch>>,
        finally: Option<Block>,
    },
    Debugger {
        span: Span,
    },
    /// 14.1, 14.4, with a name
    FunctionDeclaration(Boxed<Function>),
    /// 14.5, with a name
    ClassDeclaration(Boxed<Class>),
}

/// Statements in braces (13.2).
#[cycle(ast)]
#[derive(Drop)]
pub struct Block {
    pub span: Span,
    pub statements: Items<Statement>,
}

/// A test with the statement under it: from its `if` to the statement's end (13.6).
#[cycle(ast)]
#[derive(Drop)]
pub struct Condition {
    pub span: Span,
    pub test: Boxed<Expression>,
    pub body: Boxed<Statement>,
}

/// What stands before the first semicolon of a for statement (13.7.4).
#[cycle(ast)]
#[derive(Drop)]
pub enum ForFirst {
    NoFirst,
    FirstVariables {
        span: Span,
        kind: VariableKind,
        parts: Items<Part>,
    },
    FirstExpression(Expression),
}

/// What stands before the `of` of a for-of statement (13.7.5).
#[cycle(ast)]
#[derive(Drop)]
pub enum ForTarget {
    Declared {
        span: Span,
        kind: VariableKind,
        pattern: Pattern,
    },
    Assigned(Pattern),
}

/// A clause of a switch statement (13.12). The default clause has no test.
#[cycle(ast)]
#[derive(Drop)]
pub struct Case {
    pub span: Span,
    pub test: Option<Expression>,
    pub body: Items<Statement>,
}

/// 13.15
#[cycle(ast)]
#[derive(Drop)]
pub struct Catch {
    pub span: Span,
    pub parameter: Pattern,
    pub body: Block,
}

/// What is bound or assigned: a target by itself, or the targets of an array or object pattern (13.3.3, 12.14.5). Where
/// names are bound, a target is a `Name`. Where something is assigned, it is any expression that no pattern spells.
#[cycle(ast)]
#[derive(Drop)]
pub enum Pattern {
    Target(Boxed<Expression>),
    ArrayPattern {
        span: Span,
        parts: Items<ArrayPart>,
    },
    ObjectPattern {
        span: Span,
        parts: Items<ObjectPart>,
    },
}

/// A pattern with the value that it has by default: a declared variable, a parameter, or a part of a pattern.
#[cycle(ast)]
#[derive(Drop)]
pub struct Part {
    pub span: Span,
    pub pattern: Pattern,
    pub default: Option<Expression>,
}

/// A part of an array pattern, or a hole. A rest is the last part.
#[cycle(ast)]
#[derive(Drop)]
pub enum ArrayPart {
    SkippedPart,
    SinglePart(Part),
    RestPart { span: Span, pattern: Pattern },
}

/// A property of an object pattern.
#[cycle(ast)]
#[derive(Drop)]
pub enum ObjectPart {
    /// A name alone, or with its default.
    NamedPart(Part),
    KeyedPart { span: Span, key: Key, part: Part },
}

/// A parameter (14.1). A rest is the last one.
#[cycle(ast)]
#[derive(Drop)]
pub enum Parameter {
    SingleParameter(Part),
    RestParameter { span: Span, pattern: Pattern },
}

/// A function, a generator function, or the part of a method from its `(` on (14.1, 14.3, 14.4). A method's has no name.
#[cycle(ast)]
#[derive(Drop)]
pub struct Function {
    pub span: Span,
    pub is_generator: bool,
    pub name: Option<Identifier>,
    pub parameters: Items<Parameter>,
    pub body: Items<Statement>,
}

/// An arrow function (14.2).
#[cycle(ast)]
#[derive(Drop)]
pub struct Arrow {
    pub span: Span,
    pub parameters: Items<Parameter>,
    pub body: ArrowBody,
}

/// What follows an arrow.
#[cycle(ast)]
#[derive(Drop)]
pub enum ArrowBody {
    ValueBody(Boxed<Expression>),
    BlockBody(Block),
}

/// A method definition (14.3). A getter's function has no parameter, and a setter's has one.
#[cycle(ast)]
#[derive(Drop)]
pub struct Method {
    pub span: Span,
    pub kind: MethodKind,
    pub key: Key,
    pub function: Boxed<Function>,
}

/// A class (14.5).
#[cycle(ast)]
#[derive(Drop)]
pub struct Class {
    pub span: Span,
    pub name: Option<Identifier>,
    pub heritage: Option<Boxed<Expression>>,
    pub members: Items<ClassMember>,
}

/// A method of a class, from `static` on where it is static.
#[cycle(ast)]
#[derive(Drop)]
pub struct ClassMember {
    pub span: Span,
    pub is_static: bool,
    pub method: Method,
}

/// A property name (12.2.6).
#[cycle(ast)]
#[derive(Drop)]
pub enum Key {
    WordKey {
        span: Span,
        name: Name,
    },
    TextKey {
        span: Span,
        units: Units,
    },
    IntegerKey {
        span: Span,
        value: i64,
    },
    ComputedKey {
        span: Span,
        value: Boxed<Expression>,
    },
}

/// An expression (12).
#[cycle(ast)]
#[derive(Drop)]
pub enum Expression {
    This {
        span: Span,
    },
    Name {
        span: Span,
        name: Name,
    },
    Literal {
        span: Span,
        literal: Literal,
    },
    Template(Template),
    /// 12.2.5: `ends_in_comma` says that a comma follows the last element, which a rest in a pattern may not have
    ArrayList {
        span: Span,
        elements: Items<Element>,
        ends_in_comma: bool,
    },
    ObjectList {
        span: Span,
        properties: Items<Property>,
    },
    Function(Boxed<Function>),
    Arrow(Boxed<Arrow>),
    Class(Boxed<Class>),
    /// 12.3: what accesses and calls begin with, and at least one of these from left to right
    Chain {
        span: Span,
        head: Boxed<Expression>,
        links: Items<Link>,
    },
    /// 12.3.5: `super.k`
    SuperMember {
        span: Span,
        name: Identifier,
    },
    /// 12.3.5: `super[k]`
    SuperIndex {
        span: Span,
        index: Boxed<Expression>,
    },
    SuperCall {
        span: Span,
        arguments: Items<Argument>,
    },
    /// 12.3.8
    NewTarget {
        span: Span,
    },
    New {
        span: Span,
        callee: Boxed<Expression>,
        arguments: Items<Argument>,
    },
    Update {
        span: Span,
        operator: UpdateOperator,
        target: Boxed<Expression>,
    },
    Unary {
        span: Span,
        operator: UnaryOperator,
        operand: Boxed<Expression>,
    },
    /// the 7th edition, 12.6
    Power {
        span: Span,
        base: Boxed<Expression>,
        exponent: Boxed<Expression>,
    },
    /// operands with operators of one precedence between them, from left to right
    Binary {
        span: Span,
        first: Boxed<Expression>,
        rest: Items<Operand>,
    },
    Conditional {
        span: Span,
        test: Boxed<Expression>,
        yes: Boxed<Expression>,
        no: Boxed<Expression>,
    },
    Assign {
        span: Span,
        operator: AssignOperator,
        target: Pattern,
        value: Boxed<Expression>,
    },
    /// 12.15, with at least two parts
    Sequence {
        span: Span,
        first: Boxed<Expression>,
        rest: Items<Expression>,
    },
    Yield {
        span: Span,
        value: Option<Boxed<Expression>>,
    },
    /// `yield *`
    Delegate {
        span: Span,
        value: Boxed<Expression>,
    },
    /// an expression in parentheses, which means what it holds
    Group {
        span: Span,
        held: Boxed<Expression>,
    },
    /// parentheses that hold nothing, or a rest as the last part: only parameters before an arrow are written so (12.2)
    Cover {
        span: Span,
        held: Option<Boxed<Expression>>,
        rest: Option<Rest>,
    },
}

/// An element of an array literal, or a hole (12.2.5).
#[cycle(ast)]
#[derive(Drop)]
pub enum Element {
    Hole,
    Present(Argument),
}

/// An argument of a call or an element of an array literal (12.3.6).
#[cycle(ast)]
#[derive(Drop)]
pub enum Argument {
    Single(Expression),
    Spread { span: Span, value: Expression },
}

/// A property of an object literal (12.2.6).
#[cycle(ast)]
#[derive(Drop)]
pub enum Property {
    Plain {
        span: Span,
        key: Key,
        value: Expression,
    },
    Shorthand {
        span: Span,
        name: Name,
    },
    /// a shorthand with an initializer, which only patterns may have, and the place of its `=`
    Initialized {
        span: Span,
        name: Identifier,
        equals: Span,
        value: Expression,
    },
    Defined(Method),
}

/// An access or a call, from its `.`, `[`, `(` or template to its end (12.3).
#[cycle(ast)]
#[derive(Drop)]
pub enum Link {
    Member {
        span: Span,
        name: Identifier,
    },
    Index {
        span: Span,
        index: Expression,
    },
    Call {
        span: Span,
        arguments: Items<Argument>,
    },
    Tagged(Template),
}

/// A template (12.2.9): its first stretch of characters, and each value with the stretch after it.
#[cycle(ast)]
#[derive(Drop)]
pub struct Template {
    pub span: Span,
    pub first: Stretch,
    pub rest: Items<TemplatePart>,
}

/// A stretch of a template's characters: its value and its raw text (11.8.6).
#[derive(Debug, Drop)]
pub struct Stretch {
    pub span: Span,
    pub cooked: Units,
    pub raw: Units,
}

/// A value of a template, and the stretch of characters after it.
#[cycle(ast)]
#[derive(Drop)]
pub struct TemplatePart {
    pub value: Expression,
    pub after: Stretch,
}

/// An operator and what follows it (12.6 to 12.12).
#[cycle(ast)]
#[derive(Drop)]
pub struct Operand {
    pub operator: BinaryOperator,
    pub value: Expression,
}
