//! Functions that are declared (ECMA-262, 6th edition, 9.2.12, step 36; 13.2.14, step 4; 15.2.1.16.4, step 16), and function expressions
//! (14.1.20).

ghost use Rattle.std.specs.Prelude.{◌≡◌, ◌∷◌, [], IfOk, OnOk, false};
ghost use Rattle.source_functions.specs.Made.{Makes};
ghost use Rattle.source_meaning.specs.Functions.{function_by, function_expression, named_in_own, with_function, with_functions};
ghost use Rattle.source_meaning.specs.State.{Uninitialized};
ghost use Rattle.source_meaning.specs.Steps.{within};
ghost use Rattle.source_moves.specs.Seen.{state_of};

use crate::closures::closed;
use core_state::Environment;
use es_value::Value;
use es6_ast::{Function, Identifier};
use source_moves::{PendingWork, enter_bindings, initialize};
use source_state::{Binding, BorrowedName, Code, Held, Node, State};
use sqlite_items::Items;
use std::alloc::{AllocError, Global};

/// A function that is declared is made.
pub fn with_function<'a, W: PendingWork<'a>>(
    alloc: Global,
    function: &Node<'a, Function>,
    st: &mut State<'a, W>,
) -> Result<(), AllocError>
    ensures { OnOk result (state_of W.seen st.new ≡ with_function (state_of W.seen st.old) function.now) }
{
    let value = closed(
        alloc,
        Code::PlainCode(function.share()),
        Value::Undefined,
        st,
    )?;
    if let Some(name) = &function.get().name {
        initialize(alloc, name.name.bytes(), value, st);
    }
    Ok(())
}

/// These functions are made in their order.
pub fn with_functions<'a, W: PendingWork<'a>>(
    alloc: Global,
    functions: &[Node<'a, Function>],
    st: &mut State<'a, W>,
) -> Result<(), AllocError>
    ensures { OnOk result (state_of W.seen st.new ≡ with_functions functions.now (state_of W.seen st.old)) }
{
    for function in functions {
        with_function(alloc, function, st)?;
    }
    Ok(())
}

/// The one name of a record, which can't be written.
fn own_name<'a>(alloc: Global, name: BorrowedName<'a>) -> Result<Items<Binding<'a>>, AllocError>
    ensures { IfOk result (λ bindings. bindings ≡ record { name = name.entry; mutable = false; held = Uninitialized } ∷ []) }
{
    let mut bindings = Items::new(alloc);
    bindings.push(Binding {
        name,
        mutable: false,
        held: Held::Uninitialized,
    })?;
    Ok(bindings)
}

fn leave_scope<'a, W: PendingWork<'a>>(outside: Environment, st: &mut State<'a, W>)
    ensures { state_of W.seen st.new ≡ within outside (state_of W.seen st.old) }
{
    st.context.environment = outside;
}

/// A function expression with a name, in a record that has the name.
fn named_in_own<'a, W: PendingWork<'a>>(
    alloc: Global,
    name: &'a Identifier,
    function: &Node<'a, Function>,
    st: &mut State<'a, W>,
) -> Result<Value, AllocError>
    ensures { Makes W.seen result st.new (named_in_own name.now.name (state_of W.seen st.old).context.environment function.now (state_of W.seen st.old)) }
{
    let outside = st.context.environment.share()?;
    let bindings = own_name(alloc, BorrowedName::of(name.name.bytes()))?;
    enter_bindings(alloc, bindings, st)?;
    let value = closed(
        alloc,
        Code::PlainCode(function.share()),
        Value::Undefined,
        st,
    )?;
    let given = value.share()?;
    initialize(alloc, name.name.bytes(), value, st);
    leave_scope(outside, st);
    Ok(given)
}

/// The value of a function expression.
pub fn function_expression<'a, W: PendingWork<'a>>(
    alloc: Global,
    function: &Node<'a, Function>,
    st: &mut State<'a, W>,
) -> Result<Value, AllocError>
    ensures { Makes W.seen result st.new (function_expression function.now (state_of W.seen st.old)) }
{
    match &function.get().name {
        None => closed(
            alloc,
            Code::PlainCode(function.share()),
            Value::Undefined,
            st,
        ),
        Some(name) => named_in_own(alloc, name, function, st),
    }
}
