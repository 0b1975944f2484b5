//! Completions that are handed to the top frame.

ghost use Rattle.std.specs.Prelude.{◌≡◌, ◌∷◌, IfOk, if◌then◌else◌};
ghost use Rattle.core_machine.specs.Left.{block_left, loop_left, operation_left, target_left};
ghost use Rattle.core_meaning.specs.Calls.{binding, constructed};
ghost use Rattle.core_meaning.specs.Expressions.{with_step};
ghost use Rattle.core_meaning.specs.Names.{write};
ghost use Rattle.core_meaning.specs.Properties.{puts};
ghost use Rattle.core_meaning.specs.Rows.{controls, hands, within};
ghost use Rattle.core_meaning.specs.Step.{abrupt, done, given, handed, keyed};
ghost use Rattle.core_meaning.specs.Statements.{catch, choose, match_next};
ghost use Rattle.core_moves.specs.Moves.{Steps};
ghost use Rattle.core_state.specs.declared.frame.Control.{Control};
ghost use Rattle.core_state.specs.declared.value.CoreValue.{CoreValue};
ghost use Rattle.es_operators.specs.Primitives.{truth_of};

use core_ast::{Label, Update, Var};
use core_expressions::{fetch_given, making, part_given, puts, step_value, stepped, write};
use core_moves::{CoreRows, Move, Moved, StateOf, enter_record, leave, push, unlawful};
use core_state::{
    Binding, Cases, Completion, Control, CoreValue, Current, Environment, Frame, Links, Loop,
    Names, State, Stats,
};
use core_statements::{
    choose, finish, go_on, jumped, match_next, matched, receive, repeat, target_jumped, tested,
    thrown_out,
};
use es_calls::BuiltinCall;
use es_heap::Key;
use es_operators::truth_of;
use es_outside::Site;
use es_value::Value;
use sqlite_items::Items;
use std::alloc::AllocError;

/// A key was converted: a reference goes on.
fn keyed<'a, M: Drop, O, W, S>(
    base: Value,
    links: Links<'a>,
    key: Value,
    st: &State<'a, M, O, W, S>,
) -> Moved<'a, M>
    ensures { Steps result st.now (keyed base links.entry st.now key) }
{
    match key {
        Value::Text(text) => Ok(Move::go(Current::Reference(base, Key::Text(text)), links)),
        _ => unlawful(st),
    }
}

/// A value is written to a reference, and goes on.
fn stored<'a, R: CoreRows<'a>>(
    rows: &R,
    base: Value,
    key: &Key,
    value: Value,
    links: Links<'a>,
    st: &mut StateOf<'a, R>,
) -> Moved<'a, R::Mark>
    ensures { Steps result st.new (puts value base key.now value links.entry st.old) }
{
    let given = value.share()?;
    puts(rows, given, base, key, value, links, st)
}

/// A number at a reference is changed by one.
fn step_at<'a, R: CoreRows<'a>>(
    rows: &R,
    update: Update,
    base: Value,
    key: &Key,
    value: Value,
    links: Links<'a>,
    st: &mut StateOf<'a, R>,
) -> Moved<'a, R::Mark>
    ensures { Steps result st.new (with_step update value st.old (λ n given. puts given base key.now n links.entry st.old)) }
{
    match value {
        Value::Number(before) => match stepped(update, before) {
            Err(exit) => leave(st, exit.number()),
            Ok(after) => {
                let given = step_value(update, before, after);
                puts(rows, given, base, key, Value::Number(after), links, st)
            }
        },
        _ => unlawful(st),
    }
}

/// A number in a name is changed by one.
fn step_name<'a, R: CoreRows<'a>>(
    rows: &R,
    update: Update,
    var: Var,
    value: Value,
    links: Links<'a>,
    st: &mut StateOf<'a, R>,
) -> Moved<'a, R::Mark>
    ensures { Steps result st.new (with_step update value st.old (λ n given. write (R.rows rows.now) var (CoreValue.User n) (CoreValue.User given) links.entry st.old)) }
{
    match value {
        Value::Number(before) => match stepped(update, before) {
            Err(exit) => leave(st, exit.number()),
            Ok(after) => {
                let given = CoreValue::User(step_value(update, before, after));
                write(
                    rows,
                    var,
                    CoreValue::User(Value::Number(after)),
                    given,
                    links,
                    st,
                )
            }
        },
        _ => unlawful(st),
    }
}

/// What a construction gives: the object that was returned, or the one that was made.
fn constructed(made: Value, given: Value) -> Value
    ensures { result ≡ constructed made given }
{
    match given {
        Value::Object(id) => Value::Object(id),
        _ => made,
    }
}

/// The test of a case of a choice gave this.
fn chosen<'a, M: Drop, O, W: Drop, S>(
    body: Stats<'a>,
    cases: Cases<'a>,
    value: &Value,
    st: &mut State<'a, M, O, W, S>,
) -> Moved<'a, M>
    ensures { Steps result st.new (if truth_of value.now then controls (Control.Run body.entry) st.old else choose cases.entry st.old) }
{
    if truth_of(value) {
        Ok(Move::Goes(Control::Run(body)))
    } else {
        choose(cases, st)
    }
}

/// The subject of a switch is there.
fn switched<'a, M: Drop, O, W: Drop, S>(
    cases: Cases<'a>,
    value: Value,
    st: &mut State<'a, M, O, W, S>,
) -> Moved<'a, M>
    ensures { Steps result st.new (match_next value cases.entry cases.entry st.old) }
{
    let all = cases.share();
    match_next(value, all, cases, st)
}

/// A value that the program sees is handed to a frame.
#[tactic(auto, unfolding(core_meaning::specs::Step::given))]
fn user_given<'a, R: CoreRows<'a>>(
    rows: &R,
    value: Value,
    frame: Frame<'a, R::Mark, R::Work>,
    st: &mut StateOf<'a, R>,
) -> Moved<'a, R::Mark>
    ensures { Steps result st.new (given (R.rows rows.now) (R.core rows.now) (CoreValue.User value) st.old frame.entry) }
{
    match frame {
        Frame::Part(strict) => part_given(rows, strict, CoreValue::User(value), st),
        Frame::Fetch(base, key, strict) => fetch_given(rows, base, key, strict, value, st),
        Frame::After(links) => Ok(Move::has(value, links)),
        Frame::Behind(kept, links) => Ok(Move::go(Current::Has(kept), links)),
        Frame::Keyed(base, links) => keyed(base, links, value, st),
        Frame::Store(base, key, links) => stored(rows, base, &key, value, links, st),
        Frame::StepAt(by, base, key, links) => step_at(rows, by, base, &key, value, links, st),
        Frame::StepName(by, var, links) => step_name(rows, by, var, value, links, st),
        Frame::Operation(site, call) => receive(site, call, value, st),
        Frame::Making(function, args, target) => making(rows, function, args, target, value, st),
        Frame::Made(made) => Ok(Move::hand(Completion::Gives(CoreValue::User(constructed(
            made, value,
        ))))),
        Frame::Rest(stats) => Ok(Move::Goes(Control::Run(stats))),
        Frame::Choice(body, cases) => chosen(body, cases, &value, st),
        Frame::Subject(cases) => switched(cases, value, st),
        Frame::Matching(subject, cases, all) => matched(subject, cases, all, &value, st),
        Frame::LoopTest(of) => tested(of, &value, st),
        Frame::LoopUpdate(of) => repeat(of, st),
        Frame::Returning => Ok(Move::hand(Completion::Returns(CoreValue::User(value)))),
        Frame::Throwing => Ok(Move::hand(Completion::Throws(value))),
        Frame::Work(work) => rows.work(work, Completion::Gives(CoreValue::User(value)), st),
        _ => unlawful(st),
    }
}

/// A value that the program doesn't see is handed to a frame.
#[tactic(auto, unfolding(core_meaning::specs::Step::given))]
fn extra_given<'a, R: CoreRows<'a>>(
    rows: &R,
    mark: R::Mark,
    frame: Frame<'a, R::Mark, R::Work>,
    st: &mut StateOf<'a, R>,
) -> Moved<'a, R::Mark>
    ensures { Steps result st.new (given (R.rows rows.now) (R.core rows.now) (CoreValue.Extra mark) st.old frame.entry) }
{
    match frame {
        Frame::Part(strict) => part_given(rows, strict, CoreValue::Extra(mark), st),
        Frame::After(links) => Ok(Move::go(Current::Has(CoreValue::Extra(mark)), links)),
        Frame::Behind(kept, links) => Ok(Move::go(Current::Has(kept), links)),
        Frame::Rest(stats) => Ok(Move::Goes(Control::Run(stats))),
        Frame::LoopUpdate(of) => repeat(of, st),
        Frame::Returning => Ok(Move::hand(Completion::Returns(CoreValue::Extra(mark)))),
        Frame::Work(work) => rows.work(work, Completion::Gives(CoreValue::Extra(mark)), st),
        _ => unlawful(st),
    }
}

/// The end of statements is handed to a frame.
#[tactic(auto, unfolding(core_meaning::specs::Step::done))]
fn done<'a, R: CoreRows<'a>>(
    rows: &R,
    frame: Frame<'a, R::Mark, R::Work>,
    st: &mut StateOf<'a, R>,
) -> Moved<'a, R::Mark>
    ensures { Steps result st.new (done (R.rows rows.now) st.old frame.entry) }
{
    match frame {
        Frame::After(links) => Ok(Move::has(Value::Undefined, links)),
        Frame::Rest(stats) => Ok(Move::Goes(Control::Run(stats))),
        Frame::LoopBody(of) => go_on(of, st),
        Frame::Target(_) | Frame::Catching(..) => Ok(Move::hand(Completion::Done)),
        Frame::Finishing(last) => finish(last, Completion::Done, st),
        Frame::Pending(completion) => Ok(Move::hand(completion)),
        Frame::Restore(environment) => restore(environment, Completion::Done, st),
        Frame::Work(work) => rows.work(work, Completion::Done, st),
        _ => unlawful(st),
    }
}

/// The scope of before is there again.
fn restore<'a, M: Drop, O, W, S>(
    environment: Environment,
    completion: Completion<M>,
    st: &mut State<'a, M, O, W, S>,
) -> Moved<'a, M>
    ensures { Steps result st.new (hands completion (within environment st.old)) }
{
    st.context.environment = environment;
    Ok(Move::hand(completion))
}

/// The names of a handler (13.15.7).
fn handler_names<'a, R: CoreRows<'a>>(
    rows: &R,
    var: Var,
    names: Names<'a>,
    value: Value,
) -> Result<Items<Binding<R::Mark>>, AllocError>
    ensures { IfOk result (λ bindings. bindings ≡ binding var (CoreValue.User value) ∷ (R.rows rows.now).scoped names.entry) }
{
    let mut bindings = Items::new(rows.alloc());
    bindings.push(Binding {
        var,
        value: CoreValue::User(value),
        mutable: true,
    })?;
    rows.scoped(names.get(), &mut bindings)?;
    Ok(bindings)
}

/// A handler takes what was thrown.
fn catch<'a, R: CoreRows<'a>>(
    rows: &R,
    var: Var,
    names: Names<'a>,
    handler: Stats<'a>,
    value: Value,
    st: &mut StateOf<'a, R>,
) -> Moved<'a, R::Mark>
    ensures { Steps result st.new (catch (R.rows rows.now) var names.entry handler.entry st.old value) }
{
    let bindings = handler_names(rows, var, names, value)?;
    let environment = st.context.environment.share()?;
    push(st, Frame::Restore(environment))?;
    enter_record(rows.alloc(), bindings, st)?;
    Ok(Move::Goes(Control::Run(handler)))
}

/// A completion that ends no call goes on through the call of an operation; a throw may be dropped there.
fn operation_left<'a, M: Drop, O, W, S>(
    site: Option<Site>,
    call: BuiltinCall,
    completion: Completion<M>,
    st: &State<'a, M, O, W, S>,
) -> Moved<'a, M>
    ensures { Steps result st.now (operation_left site call st.now completion) }
{
    match completion {
        Completion::Throws(value) => thrown_out(site, call, value, st),
        other => Ok(Move::hand(other)),
    }
}

/// A loop whose body is left.
fn loop_left<'a, M: Drop, O, W: Drop, S>(
    of: Loop<'a>,
    completion: Completion<M>,
    st: &mut State<'a, M, O, W, S>,
) -> Moved<'a, M>
    ensures { Steps result st.new (loop_left of.entry st.old completion) }
{
    match completion {
        Completion::Jumps(goes_on, label) => jumped(of, goes_on, label, st),
        other => Ok(Move::hand(other)),
    }
}

/// A labelled statement or a switch that is left.
fn target_left<'a, M: Drop, O, W, S>(
    target: Option<Label>,
    completion: Completion<M>,
    st: &State<'a, M, O, W, S>,
) -> Moved<'a, M>
    ensures { Steps result st.now (target_left target st.now completion) }
{
    match completion {
        Completion::Jumps(goes_on, label) => target_jumped(target, goes_on, label, st),
        other => Ok(Move::hand(other)),
    }
}

/// A block with a handler that is left.
fn block_left<'a, R: CoreRows<'a>>(
    rows: &R,
    var: Var,
    names: Names<'a>,
    handler: Stats<'a>,
    completion: Completion<R::Mark>,
    st: &mut StateOf<'a, R>,
) -> Moved<'a, R::Mark>
    ensures { Steps result st.new (block_left (R.rows rows.now) var names.entry handler.entry st.old completion) }
{
    match completion {
        Completion::Throws(value) => catch(rows, var, names, handler, value, st),
        other => Ok(Move::hand(other)),
    }
}

/// A throw, a return or a jump is handed to a frame: what isn't named here is dropped.
#[tactic(auto, unfolding(core_meaning::specs::Step::abrupt))]
fn abrupt<'a, R: CoreRows<'a>>(
    rows: &R,
    frame: Frame<'a, R::Mark, R::Work>,
    completion: Completion<R::Mark>,
    st: &mut StateOf<'a, R>,
) -> Moved<'a, R::Mark>
    ensures { Steps result st.new (abrupt (R.rows rows.now) st.old frame.entry completion) }
{
    match frame {
        Frame::Operation(site, call) => operation_left(site, call, completion, st),
        Frame::LoopBody(of) => loop_left(of, completion, st),
        Frame::Target(target) => target_left(target, completion, st),
        Frame::Catching(var, names, handler) => {
            block_left(rows, var, names, handler, completion, st)
        }
        Frame::Finishing(last) => finish(last, completion, st),
        Frame::Restore(environment) => restore(environment, completion, st),
        Frame::Work(work) => rows.work(work, completion, st),
        _ => Ok(Move::hand(completion)),
    }
}

/// A completion is handed to a frame.
pub(crate) fn handed<'a, R: CoreRows<'a>>(
    rows: &R,
    frame: Frame<'a, R::Mark, R::Work>,
    completion: Completion<R::Mark>,
    st: &mut StateOf<'a, R>,
) -> Moved<'a, R::Mark>
    ensures { Steps result st.new (handed (R.rows rows.now) (R.core rows.now) frame.entry st.old completion) }
{
    match completion {
        Completion::Gives(CoreValue::User(value)) => user_given(rows, value, frame, st),
        Completion::Gives(CoreValue::Extra(mark)) => extra_given(rows, mark, frame, st),
        Completion::Done => done(rows, frame, st),
        other => abrupt(rows, frame, other, st),
    }
}
