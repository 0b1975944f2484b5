//! Pending work, by what it takes.

use crate::values::ValueTaker;
use core_state::Environment;
use es_calls::BuiltinCall;
use es_heap::Key;
use es_value::Value;
use es6_ast::{
    AssignOperator, Block, Catch, Expression, Item, Link, ObjectPart, Parameter, Part, Pattern,
    Statement, UpdateOperator, VariableKind,
};
use source_state::{
    Binds, BorrowedName, Code, Completion, ForOfLoop, Loop, Node, Nodes, Statements, Taking,
};
use sqlite_items::{Boxed, Items};

/// What takes a value or a reference.
#[derive(Drop)]
pub enum TargetTaker<'a> {
    Links(bool, Nodes<'a, Link>),
    UpdateReference(UpdateOperator),
    Deleting,
    AssignReference(AssignOperator, Node<'a, Expression>),
    PutTo(Value),
    MemberTarget(Value, Key, Option<Node<'a, Expression>>, Nodes<'a, ObjectPart>),
}

/// What takes an end alone: of statements, of a pattern, of parameters.
#[derive(Drop)]
pub enum EndTaker<'a> {
    MembersRest(Binds, Value, Nodes<'a, ObjectPart>),
    StatementsRest(Statements<'a>),
    VariablesRest(VariableKind, Nodes<'a, Part>),
    CatchBlock(Node<'a, Block>),
    Pending(Completion<'a>),
    ForOfBound(Node<'a, Boxed<Statement>>),
    ParametersRest(Nodes<'a, Parameter>, Items<Value>),
    ParametersBound(Code<'a>),
    ItemsRest(Nodes<'a, Item>),
}

/// What takes what a generator is resumed with.
#[derive(Drop)]
pub enum ResumptionTaker<'a> {
    GeneratorStart(Statements<'a>),
    Yielded,
    Delegated(Value),
}

/// What takes a value or an end.
#[derive(Drop)]
pub enum ScopeTaker<'a> {
    Behind(Value),
    Restore(Environment),
    LoopBegin(Loop<'a>),
}

/// What takes a value, and is told of a throw.
#[derive(Drop)]
pub enum CallerTaker {
    Operation(BuiltinCall),
    Generates(usize),
}

/// What takes an end, and is told how it is left otherwise.
#[derive(Drop)]
pub enum BodyTaker<'a> {
    SwitchBody,
    Labelling(BorrowedName<'a>),
    Catching(Node<'a, Catch>),
    Finishing(Node<'a, Block>),
    LoopBody(Loop<'a>),
    ForOfBody(ForOfLoop<'a>, Value),
    ElementsRest(bool, Taking<'a>),
}

/// What takes a value or a reference, and closes an iterator where it is left.
#[derive(Drop)]
pub enum SlotTaker<'a> {
    ElementTarget(bool, Node<'a, Pattern>, Option<Node<'a, Expression>>, Taking<'a>),
    RestTarget(bool, Taking<'a>),
}

/// What takes a completion: pending work, by what it takes.
#[derive(Drop)]
pub enum Taker<'a> {
    Value(ValueTaker<'a>),
    Target(TargetTaker<'a>),
    End(EndTaker<'a>),
    Resumption(ResumptionTaker<'a>),
    Scope(ScopeTaker<'a>),
    Caller(CallerTaker),
    Body(BodyTaker<'a>),
    Slot(SlotTaker<'a>),
}
