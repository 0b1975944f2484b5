//! What expressions begin with (ECMA-262, 6th edition, 12.2; 5.1 edition, 11.1).

ghost use Rattle.std.specs.Prelude.{◌≡◌, IfOk, pos};
ghost use Rattle.core_meaning.specs.Expressions.{begin, begin_head, closed, constant_value, global_object, has_made, integer_value};
ghost use Rattle.core_meaning.specs.Rows.{goes, has, with_option};
ghost use Rattle.core_moves.specs.Moves.{Steps};

use crate::names::{read, type_of};
use core_ast::{Constant, CoreHead, FunctionId, Global as GlobalName};
use core_moves::{CoreRows, Move, Moved, StateOf, function_at, unlawful};
use core_state::{Current, Expr, Links};
use es_heap::Class;
use es_realm::names::{
    ARRAY, ARRAY_PROTOTYPE, ERROR, OBJECT, OBJECT_PROTOTYPE, RANGE_ERROR, REFERENCE_ERROR, STRING,
    TYPE_ERROR,
};
use es_value::{ObjId, Str, Value};
use std::alloc::{AllocError, Global};

/// An integer that is written down, if it is safe.
fn integer_value(number: u64) -> Option<Value>
    ensures { result ≡ integer_value number }
{
    if number <= 9007199254740991 {
        Some(Value::Number(number as i64))
    } else {
        None
    }
}

fn constant_value(alloc: Global, constant: &Constant) -> Result<Option<Value>, AllocError>
    ensures { IfOk result (λ value. value ≡ constant_value constant.now) }
{
    match constant {
        Constant::Undefined => Ok(Some(Value::Undefined)),
        Constant::Null => Ok(Some(Value::Null)),
        Constant::Truth(truth) => Ok(Some(Value::Bool(*truth))),
        Constant::Integer(number) => Ok(integer_value(*number)),
        Constant::Text(units) => Ok(Some(Value::Text(Str::of(alloc, units.units())?))),
    }
}

fn constant<'a, R: CoreRows<'a>>(
    rows: &R,
    constant: &Constant,
    links: Links<'a>,
    st: &StateOf<'a, R>,
) -> Moved<'a, R::Mark>
    ensures { Steps result st.now (with_option (constant_value constant.now) st.now (λ value. has value links.entry st.now)) }
{
    match constant_value(rows.alloc(), constant)? {
        None => unlawful(st),
        Some(value) => Ok(Move::has(value, links)),
    }
}

fn global_object(global: GlobalName) -> ObjId
    ensures { result ≡ global_object global }
{
    match global {
        GlobalName::ObjectGlobal => OBJECT,
        GlobalName::ArrayGlobal => ARRAY,
        GlobalName::StringGlobal => STRING,
        GlobalName::ErrorGlobal => ERROR,
        GlobalName::TypeErrorGlobal => TYPE_ERROR,
        GlobalName::ReferenceErrorGlobal => REFERENCE_ERROR,
        GlobalName::RangeErrorGlobal => RANGE_ERROR,
    }
}

/// A new object without properties goes on, to which links add some.
fn made<'a, R: CoreRows<'a>>(
    rows: &R,
    proto: ObjId,
    class: Class,
    links: Links<'a>,
    st: &mut StateOf<'a, R>,
) -> Moved<'a, R::Mark>
    ensures { Steps result st.new (has_made proto class links.entry st.old) }
{
    let id = st.heap.make(rows.alloc(), Some(proto), class)?;
    Ok(Move::has(Value::Object(id), links))
}

fn this<'a, R: CoreRows<'a>>(rows: &R, links: Links<'a>, st: &StateOf<'a, R>) -> Moved<'a, R::Mark>
    ensures { Steps result st.now (goes (Current.Has ((R.rows rows.now).this st.now)) links.entry st.now) }
{
    let value = rows.this(st)?;
    Ok(Move::go(Current::Has(value), links))
}

/// A closure goes on (14.1.20; 5.1 edition, 13).
fn closed<'a, R: CoreRows<'a>>(
    rows: &R,
    function: FunctionId,
    links: Links<'a>,
    st: &mut StateOf<'a, R>,
) -> Moved<'a, R::Mark>
    ensures { Steps result st.new (closed (R.rows rows.now) (R.core rows.now) function links.entry st.old) }
{
    match function_at(rows.core(), function) {
        None => unlawful(st),
        Some(code) => {
            let value = rows.closure(function, code, st)?;
            Ok(Move::go(Current::Has(value), links))
        }
    }
}

#[tactic(auto, unfolding(core_meaning::specs::Expressions::begin_head))]
fn begin_head<'a, R: CoreRows<'a>>(
    rows: &R,
    head: &'a CoreHead,
    links: Links<'a>,
    st: &mut StateOf<'a, R>,
) -> Moved<'a, R::Mark>
    ensures { Steps result st.new (begin_head (R.rows rows.now) (R.core rows.now) head.now links.entry st.old) }
{
    match head {
        CoreHead::Constant(value) => constant(rows, value, links, st),
        CoreHead::Variable(var) => read(rows, *var, links, st),
        CoreHead::TypeOf(var) => type_of(rows, *var, links, st),
        CoreHead::Global(global) => Ok(Move::has(Value::Object(global_object(*global)), links)),
        CoreHead::Host(host) => Ok(Move::go(Current::Hosted(*host as usize), links)),
        CoreHead::This => this(rows, links, st),
        CoreHead::ArrayList => made(rows, ARRAY_PROTOTYPE, Class::Array, links, st),
        CoreHead::ObjectList => made(rows, OBJECT_PROTOTYPE, Class::Object, links, st),
        CoreHead::Function(function) => closed(rows, *function, links, st),
        CoreHead::Empty | CoreHead::ArgumentList | CoreHead::Primitive(_) | CoreHead::Copy(_) => {
            rows.head(head, links, st)
        }
    }
}

/// Begins an expression: the value of its head is there at once.
pub fn begin<'a, R: CoreRows<'a>>(
    rows: &R,
    expression: Expr<'a>,
    st: &mut StateOf<'a, R>,
) -> Moved<'a, R::Mark>
    ensures { Steps result st.new (begin (R.rows rows.now) (R.core rows.now) expression.entry st.old) }
{
    let node = expression.get();
    begin_head(rows, &node.head, Links::of(node.links.as_slice()), st)
}
