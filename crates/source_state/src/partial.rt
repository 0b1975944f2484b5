//! What is evaluated part by part.

use crate::completion::Reference;
use crate::lists::ListParts;
use crate::members::Members;
use crate::nodes::{Node, Nodes};
use crate::texts::BorrowedName;
use core_state::Stack;
use es_value::{ObjId, Value};
use es6_ast::{
    Argument, ArrayPart, ClassMember, Expression, ForTarget, Link, Method, ObjectPart, Part,
    Pattern, Property, Statement, Template,
};
use sqlite_items::{Boxed, Items};

/// How a pattern binds: names are initialized (ECMA-262, 6th edition, 6.2.3.4), or something is assigned (6.2.3.2).
#[derive(Clone, Copy, Debug, PartialEq, Eq)]
pub enum Binds {
    Initializes,
    Assigns,
}

/// A function with its receiver, or the host of this number.
#[derive(Drop)]
pub enum Callee {
    Calling(Value, Value),
    Hosting(usize),
}

/// What is passed to a callee.
#[derive(Drop)]
pub enum Passing<'a> {
    PassesArguments(Nodes<'a, Argument>),
    PassesTemplate(Node<'a, Template>),
}

/// What arguments are for: a call in a chain of links, with whether a reference is wanted of the chain, `new`, and `super(..)`.
#[derive(Drop)]
pub enum Use<'a> {
    ForCall(Callee, bool, Nodes<'a, Link>),
    ForNew(Value),
    ForSuper,
}

/// A list that grows: an array, or arguments.
#[derive(Drop)]
pub enum Collected<'a> {
    OfArray(ObjId),
    OfArguments(Use<'a>, Items<Value>),
}

/// A list, and the parts that follow.
#[derive(Drop)]
pub struct Listing<'a> {
    pub collected: Collected<'a>,
    pub rest: ListParts<'a>,
}

/// A class whose members are defined (14.5.14).
#[derive(Drop)]
pub struct Defining<'a> {
    pub name: Option<BorrowedName<'a>>,
    pub function: ObjId,
    pub prototype: ObjId,
}

/// What a computed name is of.
#[derive(Drop)]
pub enum Naming<'a> {
    OfValue(ObjId, Node<'a, Expression>, Nodes<'a, Property>),
    OfMethod(ObjId, Node<'a, Method>, Nodes<'a, Property>),
    OfMember(Defining<'a>, Node<'a, ClassMember>, Members<'a>),
    OfPart(Binds, Value, Node<'a, Part>, Nodes<'a, ObjectPart>),
}

/// Where a value of a pattern goes.
#[derive(Drop)]
pub enum Slot<'a> {
    InPattern(Node<'a, Pattern>),
    AtReference(Reference<'a>),
}

/// What takes the values of an iterator: how, and the parts that follow.
#[derive(Drop)]
pub struct Taking<'a> {
    pub binds: Binds,
    pub iterator: Value,
    pub parts: Nodes<'a, ArrayPart>,
}

/// The labels of a statement, innermost first.
pub type Labels<'a> = Stack<BorrowedName<'a>>;

/// A loop that is under way (13.7).
#[derive(Drop)]
pub struct Loop<'a> {
    pub labels: Labels<'a>,
    pub test: Option<Node<'a, Expression>>,
    pub update: Option<Node<'a, Expression>>,
    /// Whether each turn has names of its own.
    pub copies: bool,
    pub body: Node<'a, Boxed<Statement>>,
}

/// A for-of loop that is under way (13.7.5).
#[derive(Drop)]
pub struct ForOfLoop<'a> {
    pub labels: Labels<'a>,
    pub target: Node<'a, ForTarget>,
    pub body: Node<'a, Boxed<Statement>>,
}
