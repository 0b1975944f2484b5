//! Pending work that takes a value, by area.

use es_calls::Resumption;
use es_heap::Key;
use es_value::{ObjId, Str, Value};
use es6_ast::{
    Argument, ArrayPart, AssignOperator, BinaryOperator, Case, Class, Condition, Expression, Link,
    ObjectPart, Operand, Parameter, Part, Pattern, Property, Statement, TemplatePart,
    UnaryOperator, UpdateOperator, VariableKind,
};
use source_state::{
    Binds, BorrowedName, BorrowedText, Completion, ForOfLoop, Listing, Loop, Naming, Node, Nodes,
    Passing, Reference, Slot, Statements, Taking,
};
use sqlite_items::{Boxed, Items};

/// The parts of chains, of lists and of calls (ECMA-262, 6th edition, 12.2.5, 12.3).
#[derive(Drop)]
pub enum ListTaker<'a> {
    LinkIndex(Value, bool, Nodes<'a, Link>),
    LinkKey(Value, bool, Nodes<'a, Link>),
    LinkMethod(Value, Passing<'a>, bool, Nodes<'a, Link>),
    ListValue(Listing<'a>),
    SpreadPart(Listing<'a>),
    SpreadIterator(Listing<'a>),
    SpreadStep(Listing<'a>, Value),
    SpreadValue(Listing<'a>, Value),
    NewCallee(Nodes<'a, Argument>),
}

/// `super` and the heritage of classes (12.3.5, 14.5).
#[derive(Drop)]
pub enum ClassTaker<'a> {
    SuperKey(bool),
    SuperKeyed(bool),
    SuperMade,
    Heritage(Node<'a, Class>),
    HeritagePrototype(Node<'a, Class>, Value),
}

/// Templates, properties and computed names (12.2.6, 12.2.9).
#[derive(Drop)]
pub enum LiteralTaker<'a> {
    TemplateValue(Str, BorrowedText<'a>, Nodes<'a, TemplatePart>),
    TemplateText(Str, BorrowedText<'a>, Nodes<'a, TemplatePart>),
    PropertyValue(ObjId, Key, Nodes<'a, Property>),
    KeyValue(Naming<'a>),
    KeyText(Naming<'a>),
}

/// Operators (12.5 to 12.13, 12.15).
#[derive(Drop)]
pub enum OperatorTaker<'a> {
    UnaryValue(UnaryOperator),
    PowerBase(Node<'a, Expression>),
    PowerExponent(Value),
    Operands(Nodes<'a, Operand>),
    OperandRight(Value, BinaryOperator, Nodes<'a, Operand>),
    Branches(Node<'a, Expression>, Node<'a, Expression>),
    SequenceRest(Nodes<'a, Expression>),
}

/// Updates and assignments (12.4, 12.14).
#[derive(Drop)]
pub enum AssignTaker<'a> {
    UpdateOld(UpdateOperator, Reference<'a>),
    UpdateNumber(UpdateOperator, Reference<'a>),
    AssignOld(AssignOperator, Reference<'a>, Node<'a, Expression>),
    AssignRight(AssignOperator, Reference<'a>, Value),
    AssignValue(Reference<'a>),
    AssignPattern(Node<'a, Pattern>),
}

/// Patterns (12.14.5, 13.3.3).
#[derive(Drop)]
pub enum PatternTaker<'a> {
    PatternIterator(Binds, Nodes<'a, ArrayPart>),
    ElementStep(Slot<'a>, Option<Node<'a, Expression>>, Taking<'a>),
    ElementValue(Slot<'a>, Option<Node<'a, Expression>>, Taking<'a>),
    SkipStep(Taking<'a>),
    RestStep(Slot<'a>, ObjId, Taking<'a>),
    RestValue(Slot<'a>, ObjId, Taking<'a>),
    MemberValue(Binds, Value, Slot<'a>, Option<Node<'a, Expression>>, Nodes<'a, ObjectPart>),
    Defaulted(Binds, Slot<'a>),
}

/// Statements (13, 15.2.3.11).
#[derive(Drop)]
pub enum StatementTaker<'a> {
    VariableValue(VariableKind, Node<'a, Pattern>, Nodes<'a, Part>),
    Chosen(Node<'a, Boxed<Statement>>, Nodes<'a, Condition>, Option<Node<'a, Boxed<Statement>>>),
    Returning,
    Throwing,
    Subject(Nodes<'a, Case>),
    Matching(Value, Nodes<'a, Case>, Nodes<'a, Case>),
    NameGiven(BorrowedName<'a>),
}

/// Loops (13.7).
#[derive(Drop)]
pub enum LoopTaker<'a> {
    LoopTest(Loop<'a>),
    LoopUpdate(Loop<'a>),
    ForOfSubject(ForOfLoop<'a>),
    ForOfIterator(ForOfLoop<'a>),
    ForOfStep(ForOfLoop<'a>, Value),
    ForOfValue(ForOfLoop<'a>, Value),
}

/// Calls and constructions (9.2).
#[derive(Drop)]
pub enum CallTaker<'a> {
    Ignoring,
    Closing(Completion<'a>),
    ParameterDefault(Node<'a, Pattern>, Nodes<'a, Parameter>, Items<Value>),
    Making(Value, Items<Value>, Value),
    Made(Value),
    Derived(usize),
}

/// Generators (14.4).
#[derive(Drop)]
pub enum GeneratorTaker<'a> {
    GeneratorPrototype(Statements<'a>),
    YieldValue,
    Delegating,
    DelegateIterator,
    DelegateResult(Value, Resumption, Value),
    DelegateDone(Value, Resumption, Value),
    DelegateValue(Resumption),
}

/// What takes a value alone.
#[derive(Drop)]
pub enum ValueTaker<'a> {
    List(ListTaker<'a>),
    Class(ClassTaker<'a>),
    Literal(LiteralTaker<'a>),
    Operator(OperatorTaker<'a>),
    Assign(AssignTaker<'a>),
    Pattern(PatternTaker<'a>),
    Statement(StatementTaker<'a>),
    Loop(LoopTaker<'a>),
    Call(CallTaker<'a>),
    Generator(GeneratorTaker<'a>),
}
