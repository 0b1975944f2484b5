//! What stands in the nodes and holds none.

use shared_text::{Name, Units};
use sqlite_items::Items;

/// A variable: its place in the list of names of `Fresh`.
#[derive(Clone, Copy, Debug, PartialEq, Eq)]
pub struct Var(pub u32);

/// A label of a loop or block.
#[derive(Clone, Copy, Debug, PartialEq, Eq)]
pub struct Label(pub u32);

/// A function: its place in the table of functions.
#[derive(Clone, Copy, Debug, PartialEq, Eq)]
pub struct FunctionId(pub u32);

/// A name of a scope: whether closures of several turns of a loop share it, so that it is to hold a cell, and whether it
/// may be written.
#[derive(Clone, Copy, Debug, PartialEq, Eq)]
pub struct ScopedName {
    pub var: Var,
    pub shared: bool,
    pub mutable: bool,
}

/// A value that is written down. An integer is at most 9007199254740991; a negative one is made by an operator.
#[derive(Debug, Drop)]
pub enum Constant {
    Undefined,
    Null,
    Truth(bool),
    Integer(u64),
    Text(Units),
}

/// A global that modules may read.
#[derive(Clone, Copy, Debug, PartialEq, Eq)]
pub enum Global {
    ObjectGlobal,
    ArrayGlobal,
    StringGlobal,
    ErrorGlobal,
    TypeErrorGlobal,
    ReferenceErrorGlobal,
    RangeErrorGlobal,
}

/// What a script can't say in one expression, so that it calls a helper. The operands are the current value and the
/// parts behind it; one without operands begins an expression.
#[derive(Clone, Copy, Debug, PartialEq, Eq)]
pub enum Primitive {
    /// the value; throws where it is the mark of an uninitialized name
    CheckReady,
    /// throws, since a constant is written
    RefuseConst,
    /// a fresh cell for this name, with the value
    CellMake(Var),
    /// the value as a text, or as the key of a property
    ToText,
    /// an iterator of the value; where the constant is 1, only its method
    IterStart,
    /// the result object of a step, or `false` at the end
    IterStep,
    /// the value of a result object
    IterValue,
    /// closes the iterator; the constant says whether a throw is under way
    IterClose,
    /// an array of the arguments from this index on
    RestList,
    /// the list with an element, the elements of an iterable, or a hole, as the constant says
    SpreadList,
    /// `new` with a list of arguments
    Construct,
    /// a namespace object of names and getters
    NamespaceMake,
    /// whether there is a heritage, the heritage, and the function of a class
    ClassMake,
    /// throws where a class is called without `new`
    ClassGuard,
    /// `new.target`
    NewTarget,
    /// `super` called with a list of arguments
    SuperConstruct,
    /// the value becomes `this`
    ThisBind,
    /// the key of a property of `super`, and `this`
    SuperGet,
    /// an object, a key, a value, and whether it is a method
    MethodPut,
    /// an object, a key, a function, and whether it is a setter
    AccessorPut,
    /// the arguments object
    ArgumentsPut,
    /// a generator of the function's step
    GeneratorMake,
    /// resumes a generator: the kind of the resumption and its value
    GeneratorResume,
    /// a step of `yield*`: the kind of the resumption and its value
    DelegateStep,
    /// `**`
    Power,
    /// the object of a tagged template: its cooked and its raw texts
    TemplateObject,
    /// puts `includes` on the prototype of arrays
    IncludesPut,
}

/// The key of a property.
#[derive(Debug, Drop)]
pub enum Key {
    WordKey(Name),
    TextKey(Units),
    IntegerKey(u64),
}

/// When the branch of a lazy link is taken: `&&`, `||`, and `? :`, which has two.
#[derive(Clone, Copy, Debug, PartialEq, Eq)]
pub enum When {
    Truthy,
    Falsy,
    Choice,
}

/// An operator between two values.
#[derive(Clone, Copy, Debug, PartialEq, Eq)]
pub enum Binary {
    BitOr,
    BitXor,
    BitAnd,
    Equal,
    NotEqual,
    Same,
    NotSame,
    Less,
    Greater,
    AtMost,
    AtLeast,
    InstanceOf,
    In,
    ShiftLeft,
    ShiftRight,
    ShiftRightUnsigned,
    Add,
    Subtract,
    Multiply,
    Divide,
    Remainder,
}

/// An operator on one value.
#[derive(Clone, Copy, Debug, PartialEq, Eq)]
pub enum Unary {
    Void,
    Typeof,
    Plus,
    Minus,
    BitNot,
    Not,
}

/// What adds or takes one.
#[derive(Clone, Copy, Debug, PartialEq, Eq)]
pub enum Update {
    IncrementBefore,
    DecrementBefore,
    IncrementAfter,
    DecrementAfter,
}

/// What an expression begins with.
#[derive(Debug, Drop)]
pub enum CoreHead {
    Constant(Constant),
    /// the mark of an uninitialized name
    Empty,
    Variable(Var),
    /// `typeof` of a name that a script may not bind; in scripts alone
    TypeOf(Var),
    Global(Global),
    /// the host with this number, as a callee
    Host(u32),
    This,
    /// an array, to which links add its elements
    ArrayList,
    /// an object, to which links add its properties
    ObjectList,
    /// a list of arguments, to which links add them; no object of the program
    ArgumentList,
    /// a closure
    Function(FunctionId),
    Primitive(Primitive),
    /// each of these names gets a binding of its own with its value, as at the turn of a loop; the value is undefined.
    /// Until scopes are flattened.
    Copy(Items<Var>),
}

/// What a strict link does with the current value and its parts.
#[derive(Debug, Drop)]
pub enum CoreOp {
    /// the reference to a property
    Member(Key),
    /// the same with a part as the key
    Index,
    /// a call with the parts as arguments
    Call,
    /// a call with the part as the list of arguments
    CallList,
    /// a call with the first part as `this`, and the others as arguments
    CallWith,
    /// a call with the first part as `this`, and the second as the list of arguments
    CallListWith,
    New,
    NewList,
    /// writes the part to the reference
    Put,
    /// deletes the reference
    Delete,
    /// writes to the reference what the operator gives of its value and the part
    Update(Binary),
    /// adds or takes one at the reference
    Step(Update),
    Operator(Binary),
    Unary(Unary),
    /// the part, after the current value
    Then,
    /// writes the current value to the variable
    Set(Var),
    /// initializes the variable with the current value
    Init(Var),
    /// adds or takes one at the variable, in place of the current value; in scripts alone
    StepVariable(Update, Var),
    /// an element more
    Element,
    /// a hole more
    Hole,
    /// a property more
    Define(Key),
    Getter(Key),
    Setter(Key),
    /// the content of the cell
    Content,
    /// writes the part to the cell
    SetContent,
    Primitive(Primitive),
    /// until yields are flattened
    Yield,
    /// `yield*`, until yields are flattened
    Delegate,
}
