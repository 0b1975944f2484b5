//! Equal constants, keys, heads and operations.

ghost use Rattle.std.specs.Prelude.{◌≡◌, IfOk};

use crate::parts::{Constant, CoreHead, CoreOp, Key};
use sqlite_items::Items;
use std::alloc::{AllocError, Global};

impl Constant {
    /// An equal constant.
    pub fn copy(&self, alloc: Global) -> Result<Constant, AllocError>
        ensures { IfOk result (λ x. x ≡ self.now) }
    {
        Ok(match self {
            Constant::Undefined => Constant::Undefined,
            Constant::Null => Constant::Null,
            Constant::Truth(truth) => Constant::Truth(*truth),
            Constant::Integer(value) => Constant::Integer(*value),
            Constant::Text(units) => Constant::Text(units.copy(alloc)?),
        })
    }
}

impl Key {
    /// An equal key.
    pub fn copy(&self, alloc: Global) -> Result<Key, AllocError>
        ensures { IfOk result (λ x. x ≡ self.now) }
    {
        Ok(match self {
            Key::WordKey(name) => Key::WordKey(name.copy(alloc)?),
            Key::TextKey(units) => Key::TextKey(units.copy(alloc)?),
            Key::IntegerKey(value) => Key::IntegerKey(*value),
        })
    }
}

impl CoreHead {
    /// An equal head.
    pub fn copy(&self, alloc: Global) -> Result<CoreHead, AllocError>
        ensures { IfOk result (λ x. x ≡ self.now) }
    {
        Ok(match self {
            CoreHead::Constant(constant) => CoreHead::Constant(constant.copy(alloc)?),
            CoreHead::Empty => CoreHead::Empty,
            CoreHead::Variable(var) => CoreHead::Variable(*var),
            CoreHead::TypeOf(var) => CoreHead::TypeOf(*var),
            CoreHead::Global(global) => CoreHead::Global(*global),
            CoreHead::Host(host) => CoreHead::Host(*host),
            CoreHead::This => CoreHead::This,
            CoreHead::ArrayList => CoreHead::ArrayList,
            CoreHead::ObjectList => CoreHead::ObjectList,
            CoreHead::ArgumentList => CoreHead::ArgumentList,
            CoreHead::Function(function) => CoreHead::Function(*function),
            CoreHead::Primitive(primitive) => CoreHead::Primitive(*primitive),
            CoreHead::Copy(vars) => CoreHead::Copy(Items::from_slice(alloc, vars.as_slice())?),
        })
    }
}

impl CoreOp {
    /// An equal operation.
    pub fn copy(&self, alloc: Global) -> Result<CoreOp, AllocError>
        ensures { IfOk result (λ x. x ≡ self.now) }
    {
        Ok(match self {
            CoreOp::Member(key) => CoreOp::Member(key.copy(alloc)?),
            CoreOp::Index => CoreOp::Index,
            CoreOp::Call => CoreOp::Call,
            CoreOp::CallList => CoreOp::CallList,
            CoreOp::CallWith => CoreOp::CallWith,
            CoreOp::CallListWith => CoreOp::CallListWith,
            CoreOp::New => CoreOp::New,
            CoreOp::NewList => CoreOp::NewList,
            CoreOp::Put => CoreOp::Put,
            CoreOp::Delete => CoreOp::Delete,
            CoreOp::Update(binary) => CoreOp::Update(*binary),
            CoreOp::Step(update) => CoreOp::Step(*update),
            CoreOp::Operator(binary) => CoreOp::Operator(*binary),
            CoreOp::Unary(unary) => CoreOp::Unary(*unary),
            CoreOp::Then => CoreOp::Then,
            CoreOp::Set(var) => CoreOp::Set(*var),
            CoreOp::Init(var) => CoreOp::Init(*var),
            CoreOp::StepVariable(update, var) => CoreOp::StepVariable(*update, *var),
            CoreOp::Element => CoreOp::Element,
            CoreOp::Hole => CoreOp::Hole,
            CoreOp::Define(key) => CoreOp::Define(key.copy(alloc)?),
            CoreOp::Getter(key) => CoreOp::Getter(key.copy(alloc)?),
            CoreOp::Setter(key) => CoreOp::Setter(key.copy(alloc)?),
            CoreOp::Content => CoreOp::Content,
            CoreOp::SetContent => CoreOp::SetContent,
            CoreOp::Primitive(primitive) => CoreOp::Primitive(*primitive),
            CoreOp::Yield => CoreOp::Yield,
            CoreOp::Delegate => CoreOp::Delegate,
        })
    }
}
