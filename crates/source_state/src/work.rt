//! What is pending.

use crate::completion::{Completion, Reference};
use crate::function::Code;
use crate::nodes::{Node, Nodes};
use crate::partial::{Binds, ForOfLoop, Listing, Loop, Naming, Passing, Slot, Taking};
use crate::statements::Statements;
use crate::texts::{BorrowedName, BorrowedText};
use core_state::Environment;
use es_calls::{BuiltinCall, Resumption};
use es_heap::Key;
use es_value::{ObjId, Str, Value};
use es6_ast::{
    Argument, ArrayPart, AssignOperator, BinaryOperator, Block, Case, Catch, Class, Condition,
    Expression, Item, Link, ObjectPart, Operand, Parameter, Part, Pattern, Property, Statement,
    TemplatePart, UnaryOperator, UpdateOperator, VariableKind,
};
use sqlite_items::{Boxed, Items};

/// What is pending in a context, and what it does with what is handed to it.
#[derive(Drop)]
pub enum Work<'a> {
    /// An operation or a function of the library calls a function.
    Operation(BuiltinCall),
    /// This is the value, whatever is given.
    Behind(Value),
    Ignoring,
    // ECMA-262, 6th edition, 12.3: the links of a chain, whether a reference is wanted; a key in brackets; the method of a call
    Links(bool, Nodes<'a, Link>),
    LinkIndex(Value, bool, Nodes<'a, Link>),
    LinkKey(Value, bool, Nodes<'a, Link>),
    LinkMethod(Value, Passing<'a>, bool, Nodes<'a, Link>),
    // 12.2.5, 12.3.6: a part of a list; a spread one, its iterator, a step, and a value
    ListValue(Listing<'a>),
    SpreadPart(Listing<'a>),
    SpreadIterator(Listing<'a>),
    SpreadStep(Listing<'a>, Value),
    SpreadValue(Listing<'a>, Value),
    // 12.3.3, 12.3.5
    NewCallee(Nodes<'a, Argument>),
    SuperKey(bool),
    SuperKeyed(bool),
    SuperMade,
    // 12.2.9: a value of a template, and its text
    TemplateValue(Str, BorrowedText<'a>, Nodes<'a, TemplatePart>),
    TemplateText(Str, BorrowedText<'a>, Nodes<'a, TemplatePart>),
    // 12.2.6: the value of a property; a computed name, and its text
    PropertyValue(ObjId, Key, Nodes<'a, Property>),
    KeyValue(Naming<'a>),
    KeyText(Naming<'a>),
    // 12.4, 12.5
    UpdateReference(UpdateOperator),
    UpdateOld(UpdateOperator, Reference<'a>),
    UpdateNumber(UpdateOperator, Reference<'a>),
    Deleting,
    UnaryValue(UnaryOperator),
    // 12.6 to 12.13, 12.15
    PowerBase(Node<'a, Expression>),
    PowerExponent(Value),
    Operands(Nodes<'a, Operand>),
    OperandRight(Value, BinaryOperator, Nodes<'a, Operand>),
    Branches(Node<'a, Expression>, Node<'a, Expression>),
    SequenceRest(Nodes<'a, Expression>),
    // 12.14
    AssignReference(AssignOperator, Node<'a, Expression>),
    AssignOld(AssignOperator, Reference<'a>, Node<'a, Expression>),
    AssignRight(AssignOperator, Reference<'a>, Value),
    AssignValue(Reference<'a>),
    AssignPattern(Node<'a, Pattern>),
    PutTo(Value),
    // 12.14.5, 13.3.3: an array pattern: its iterator, the target of a part, a step and a value, what follows; the rest
    PatternIterator(Binds, Nodes<'a, ArrayPart>),
    ElementTarget(bool, Node<'a, Pattern>, Option<Node<'a, Expression>>, Taking<'a>),
    ElementStep(Slot<'a>, Option<Node<'a, Expression>>, Taking<'a>),
    ElementValue(Slot<'a>, Option<Node<'a, Expression>>, Taking<'a>),
    SkipStep(Taking<'a>),
    RestTarget(bool, Taking<'a>),
    RestStep(Slot<'a>, ObjId, Taking<'a>),
    RestValue(Slot<'a>, ObjId, Taking<'a>),
    ElementsRest(bool, Taking<'a>),
    // an object pattern: the target of a part, the value of a property, what follows
    MemberTarget(Value, Key, Option<Node<'a, Expression>>, Nodes<'a, ObjectPart>),
    MemberValue(Binds, Value, Slot<'a>, Option<Node<'a, Expression>>, Nodes<'a, ObjectPart>),
    MembersRest(Binds, Value, Nodes<'a, ObjectPart>),
    // a value by default
    Defaulted(Binds, Slot<'a>),
    // 13: statements
    StatementsRest(Statements<'a>),
    VariableValue(VariableKind, Node<'a, Pattern>, Nodes<'a, Part>),
    VariablesRest(VariableKind, Nodes<'a, Part>),
    Chosen(Node<'a, Boxed<Statement>>, Nodes<'a, Condition>, Option<Node<'a, Boxed<Statement>>>),
    Returning,
    Throwing,
    Subject(Nodes<'a, Case>),
    Matching(Value, Nodes<'a, Case>, Nodes<'a, Case>),
    SwitchBody,
    Labelling(BorrowedName<'a>),
    Restore(Environment),
    Catching(Node<'a, Catch>),
    CatchBlock(Node<'a, Block>),
    Finishing(Node<'a, Block>),
    Pending(Completion<'a>),
    // 13.7: loops
    LoopBegin(Loop<'a>),
    LoopTest(Loop<'a>),
    LoopBody(Loop<'a>),
    LoopUpdate(Loop<'a>),
    ForOfSubject(ForOfLoop<'a>),
    ForOfIterator(ForOfLoop<'a>),
    ForOfStep(ForOfLoop<'a>, Value),
    ForOfValue(ForOfLoop<'a>, Value),
    ForOfBound(Node<'a, Boxed<Statement>>),
    ForOfBody(ForOfLoop<'a>, Value),
    /// An iterator is closed under a completion (7.4.6).
    Closing(Completion<'a>),
    // 14.5: the heritage of a class, and its prototype
    Heritage(Node<'a, Class>),
    HeritagePrototype(Node<'a, Class>, Value),
    // 9.2: a function is called; what it constructs is made; it is called for that, with its `this` in this record
    ParameterDefault(Node<'a, Pattern>, Nodes<'a, Parameter>, Items<Value>),
    ParametersRest(Nodes<'a, Parameter>, Items<Value>),
    ParametersBound(Code<'a>),
    Making(Value, Items<Value>, Value),
    Made(Value),
    Derived(usize),
    // 14.4, 25.3: a generator is made; its start; a yield; `yield*`; and in its caller, that it runs
    GeneratorPrototype(Statements<'a>),
    GeneratorStart(Statements<'a>),
    YieldValue,
    Yielded,
    Delegating,
    DelegateIterator,
    Delegated(Value),
    DelegateResult(Value, Resumption, Value),
    DelegateDone(Value, Resumption, Value),
    DelegateValue(Resumption),
    Generates(usize),
    // 15.2: items of a module, and the value of a default export
    ItemsRest(Nodes<'a, Item>),
    NameGiven(BorrowedName<'a>),
}
