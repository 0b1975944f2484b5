//! Functions of the program as they are entered (ECMA-262, 6th edition, 9.2; 5.1 edition, 10.4.3, 10.5 and 13.2.1).

ghost use Rattle.std.specs.Prelude.{◌≡◌, ◌++◌, ◌∷◌, [], IfOk, IfSome, OnOk, fold, map, slice_get};
ghost use Rattle.std.specs.Option.{option_copied};
ghost use Rattle.core_statements.specs.Entered.{context_entered, context_of, entered_as, passed_at};
ghost use Rattle.core_meaning.specs.Calls.{begin_call, call_class, call_value, declare_one, enter, names_of_call, name_bound, own_name, passed, undefined_binding, with_arguments, within_call};
ghost use Rattle.core_meaning.specs.Rows.{controls, with_option};
ghost use Rattle.core_moves.specs.Moves.{Steps};
ghost use Rattle.core_state.specs.declared.frame.Control.{Control};
ghost use Rattle.es_calls.specs.Calls.{begun};
ghost use Rattle.es_heap.specs.Heaps.{object_at};

use core_ast::{CoreFunction, Declared, Var};
use core_moves::{
    CoreRows, Entered, Move, Moved, StateOf, call_host, enter_record, function_at, initialize,
    place_or, raise, unlawful,
};
use core_state::{Binding, Call, Context, Control, CoreValue, Environment, Stack, State};
use es_calls::{BuiltinCall, ErrorKind, make_arguments};
use es_heap::Class;
use es_outside::Site;
use es_realm::Edition;
use es_value::{ObjId, Value};
use sqlite_items::Items;
use std::alloc::{AllocError, Global};

fn push_undefined<M: Drop>(names: &mut Items<Binding<M>>, var: Var) -> Result<(), AllocError>
    ensures { OnOk result (names.new ≡ names.old ++ undefined_binding var ∷ []) }
{
    names.push(Binding {
        var,
        value: CoreValue::User(Value::Undefined),
        mutable: true,
    })
}

/// The parameter with its argument, if there is one.
fn push_passed<M: Drop>(
    names: &mut Items<Binding<M>>,
    var: Var,
    argument: Option<&Value>,
) -> Result<(), AllocError>
    ensures { OnOk result (names.new ≡ names.old ++ passed_at var (option_copied argument.entry) ∷ []) }
{
    match argument {
        None => push_undefined(names, var),
        Some(value) => names.push(Binding {
            var,
            value: CoreValue::User(value.share()?),
            mutable: true,
        }),
    }
}

/// The parameters with their arguments (5.1 edition, 10.5, 4.d): one without an argument is undefined.
fn passed<M: Drop>(
    alloc: Global,
    parameters: &[Var],
    args: &Items<Value>,
) -> Result<Items<Binding<M>>, AllocError>
    ensures { IfOk result (λ names. names ≡ passed parameters.now args.now) }
{
    let mut names = Items::new(alloc);
    for at in 0..parameters.len() {
        push_passed(&mut names, parameters[at], args.get(at))?;
    }
    Ok(names)
}

fn push_declared<M: Drop>(
    names: &mut Items<Binding<M>>,
    declared: &[Declared],
) -> Result<(), AllocError>
    ensures { OnOk result (names.new ≡ names.old ++ map (λ d. undefined_binding d.var) declared.now) }
{
    for one in declared {
        push_undefined(names, one.var)?;
    }
    Ok(())
}

fn push_locals<M: Drop>(names: &mut Items<Binding<M>>, locals: &[Var]) -> Result<(), AllocError>
    ensures { OnOk result (names.new ≡ names.old ++ map (λ x. undefined_binding x) locals.now) }
{
    for var in locals {
        push_undefined(names, *var)?;
    }
    Ok(())
}

fn push_name<M: Drop>(names: &mut Items<Binding<M>>, name: Option<Var>) -> Result<(), AllocError>
    ensures { OnOk result (names.new ≡ names.old ++ name_bound name) }
{
    match name {
        None => Ok(()),
        Some(var) => push_undefined(names, var),
    }
}

/// The function's own name can't be written.
fn push_own<M: Drop>(
    names: &mut Items<Binding<M>>,
    own: Option<Var>,
    function: &Value,
) -> Result<(), AllocError>
    ensures { OnOk result (names.new ≡ names.old ++ own_name own function.now) }
{
    match own {
        None => Ok(()),
        Some(var) => names.push(Binding {
            var,
            value: CoreValue::User(function.share()?),
            mutable: false,
        }),
    }
}

/// All names of a function's record; of equal ones the first counts.
fn names_of_call<M: Drop>(
    alloc: Global,
    code: &CoreFunction,
    besides: Items<Binding<M>>,
    call: &Call,
) -> Result<Items<Binding<M>>, AllocError>
    ensures { IfOk result (λ names. names ≡ names_of_call code.now besides call.now) }
{
    let mut names = passed(alloc, code.parameters.as_slice(), &call.args)?;
    push_declared(&mut names, code.declared.as_slice())?;
    push_name(&mut names, code.arguments)?;
    push_locals(&mut names, code.locals.as_slice())?;
    names.append(besides)?;
    push_own(&mut names, code.own, &call.function)?;
    Ok(names)
}

/// A function that its caller declares is made.
fn declare_one<'a, R: CoreRows<'a>>(
    rows: &R,
    declared: Declared,
    st: &mut StateOf<'a, R>,
) -> Result<(), AllocError>
    ensures { OnOk result (st.new ≡ declare_one (R.rows rows.now) (R.core rows.now) st.old declared) }
{
    if let Some(code) = function_at(rows.core(), declared.function) {
        let value = rows.closure(declared.function, code, st)?;
        initialize(rows.alloc(), declared.var, value, st);
    }
    Ok(())
}

fn declare_all<'a, R: CoreRows<'a>>(
    rows: &R,
    declared: &[Declared],
    st: &mut StateOf<'a, R>,
) -> Result<(), AllocError>
    ensures { OnOk result (st.new ≡ fold (declare_one (R.rows rows.now) (R.core rows.now)) st.old declared.now) }
{
    for one in declared {
        declare_one(rows, *one, st)?;
    }
    Ok(())
}

/// The arguments object is made, if it is mentioned.
fn make_arguments_object<'a, M: Drop, O, W, S>(
    alloc: Global,
    edition: Edition,
    name: Option<Var>,
    args: &[Value],
    st: &mut State<'a, M, O, W, S>,
) -> Result<(), AllocError>
    ensures { OnOk result (st.new ≡ with_arguments edition name args.now st.old) }
{
    if let Some(var) = name {
        let id = make_arguments(alloc, edition, &mut st.heap, args)?;
        initialize(alloc, var, CoreValue::User(Value::Object(id)), st);
    }
    Ok(())
}

/// The context of a call, which has no frames yet.
fn context_of<'a, M, O, W, S>(
    alloc: Global,
    environment: Environment,
    receiver: Value,
    site: Option<Site>,
    own: O,
    st: &State<'a, M, O, W, S>,
) -> Context<'a, M, O, W>
    ensures { result ≡ context_of environment receiver site own st.now }
{
    Context {
        environment,
        receiver,
        site: place_or(site, st),
        own,
        frames: Stack::new(alloc),
    }
}

/// A new context, above the present one.
fn enter_context<'a, M: Drop, O: Drop, W: Drop, S>(
    context: Context<'a, M, O, W>,
    st: &mut State<'a, M, O, W, S>,
) -> Result<(), AllocError>
    ensures { OnOk result (st.new ≡ context_entered context.entry st.old) }
{
    let caller = std::mem::replace(&mut st.context, context);
    st.callers.push(caller)
}

/// The context of a call with its record, functions and arguments object.
fn begin_call<'a, R: CoreRows<'a>>(
    rows: &R,
    code: &'a CoreFunction,
    environment: Environment,
    call: Call,
    entered: Entered<R::Mark, R::Own>,
    st: &mut StateOf<'a, R>,
) -> Result<(), AllocError>
    ensures { OnOk result (st.new ≡ begin_call (R.rows rows.now) (R.core rows.now) code.now environment call (entered_as entered st.old)) }
{
    let alloc = rows.alloc();
    let names = names_of_call(alloc, code, entered.names, &call)?;
    let context = context_of(
        alloc,
        environment,
        call.receiver,
        call.site,
        entered.own,
        st,
    );
    enter_context(context, st)?;
    enter_record(alloc, names, st)?;
    declare_all(rows, code.declared.as_slice(), st)?;
    make_arguments_object(
        alloc,
        rows.edition(),
        code.arguments,
        call.args.as_slice(),
        st,
    )
}

/// Runs a function of the program, whose closure has this number.
fn enter<'a, R: CoreRows<'a>>(
    rows: &R,
    number: usize,
    code: &'a CoreFunction,
    environment: Environment,
    call: Call,
    st: &mut StateOf<'a, R>,
) -> Moved<'a, R::Mark>
    ensures { IfSome (slice_get st.old.closures number) (λ closure. closure.environment ≡ environment → Steps result st.new ((R.rows rows.now).body code.now (within_call (R.rows rows.now) (R.core rows.now) code.now closure call st.old))) }
{
    let entered = rows.entered(number, code, &call, st)?;
    begin_call(rows, code, environment, call, entered, st)?;
    rows.body(code, st)
}

/// [[Call]] of a function of the program (9.2.1; 5.1 edition, 13.2.1), whose closure has this number.
fn call_function<'a, R: CoreRows<'a>>(
    rows: &R,
    number: usize,
    call: Call,
    st: &mut StateOf<'a, R>,
) -> Moved<'a, R::Mark>
    ensures { Steps result st.new (with_option (slice_get st.old.closures number) st.old (λ closure. enter (R.rows rows.now) (R.core rows.now) closure call st.old)) }
{
    let Some(closure) = st.closures.get(number) else {
        return unlawful(st);
    };
    let function = closure.function;
    let environment = closure.environment.share()?;
    match function_at(rows.core(), function) {
        None => unlawful(st),
        Some(code) => enter(rows, number, code, environment, call, st),
    }
}

/// A function of the library is called.
fn call_library<'a, R: CoreRows<'a>>(
    rows: &R,
    number: u16,
    call: Call,
    st: &StateOf<'a, R>,
) -> Moved<'a, R::Mark>
    ensures { Steps result st.now (controls (Control.Turn call.site (begun number call.receiver call.args)) st.now) }
{
    let turn = BuiltinCall::begin(rows.alloc(), number, call.receiver, call.args);
    Ok(Move::Goes(Control::Turn(call.site, turn)))
}

#[tactic(auto, unfolding(core_meaning::specs::Calls::call_class))]
fn call_object<'a, R: CoreRows<'a>>(
    rows: &R,
    object: ObjId,
    call: Call,
    st: &mut StateOf<'a, R>,
) -> Moved<'a, R::Mark>
    ensures { Steps result st.new (call_class (R.rows rows.now) (R.core rows.now) call st.old (object_at st.old.heap object).class) }
{
    match st.heap.class(object) {
        Class::Function(number) => call_function(rows, *number, call, st),
        Class::Builtin(number) => call_library(rows, *number, call, st),
        Class::Host(number) => {
            call_host(rows.alloc(), *number, call.args.as_slice(), call.site, st)
        }
        _ => raise(rows.alloc(), ErrorKind::TypeError, st),
    }
}

/// Calls a value.
pub fn call_value<'a, R: CoreRows<'a>>(
    rows: &R,
    call: Call,
    st: &mut StateOf<'a, R>,
) -> Moved<'a, R::Mark>
    ensures { Steps result st.new (call_value (R.rows rows.now) (R.core rows.now) call st.old call.function) }
{
    match call.function {
        Value::Object(object) => call_object(rows, object, call, st),
        _ => raise(rows.alloc(), ErrorKind::TypeError, st),
    }
}
