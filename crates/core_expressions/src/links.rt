//! Links, one by one (ECMA-262, 6th edition, 6.2.3.1, 12.3.4.1, 12.12, 12.13 and 12.14.4; 5.1 edition, 8.7, 11.2.3, 11.11 to 11.13).

ghost use Rattle.std.specs.Prelude.{◌≡◌, ◌∷◌};
ghost use Rattle.core_meaning.specs.Expressions.{with_current};
ghost use Rattle.core_ast.specs.declared.tree.CoreLink.{out-CoreLink};
ghost use Rattle.core_expressions.specs.Links.{take_whole};
ghost use Rattle.core_meaning.specs.Properties.{reads};
ghost use Rattle.core_meaning.specs.Step.{go, go_end, go_link, go_reference, go_value, lazy, otherwise, strict_of, taking};
ghost use Rattle.core_state.specs.declared.frame.Frame.{Frame};
ghost use Rattle.core_moves.specs.Moves.{Steps};

use crate::parts::parts;
use crate::references::reads;
use core_ast::{CoreExpr, CoreLink, CoreOp, When};
use core_moves::{CoreRows, Move, Moved, StateOf, begin, run, unlawful, user_at};
use core_state::{Completion, Control, Current, Expr, Exprs, Frame, Links, Op, Stats, Strict};
use es_heap::Key;
use es_operation_steps::{Operation, key_operand};
use es_operators::truth_of;
use es_outside::Site;
use es_value::Value;
use sqlite_items::{Boxed, Items};

/// A strict link is begun.
fn strict_of<'a, R: CoreRows<'a>>(
    rows: &R,
    op: &'a CoreOp,
    site: Option<Site>,
    current: Current<R::Mark>,
    parts: &'a [CoreExpr],
    links: Links<'a>,
) -> Strict<'a, R::Mark>
    ensures { result ≡ strict_of op.now site current parts.now links.entry }
{
    Strict {
        op: Op::of(op),
        site,
        current,
        values: Items::new(rows.alloc()),
        parts: Exprs::of(parts),
        links,
    }
}

/// A link that reads a reference before its parts.
fn fetch<'a, R: CoreRows<'a>>(
    rows: &R,
    base: Value,
    key: Key,
    strict: Strict<'a, R::Mark>,
    st: &mut StateOf<'a, R>,
) -> Moved<'a, R::Mark>
    ensures { Steps result st.new (reads (Frame.Fetch base key strict.entry) base key st.old) }
{
    let read_base = base.share()?;
    let read_key = key.share()?;
    reads(
        rows,
        Frame::Fetch(base, key, strict),
        read_base,
        &read_key,
        st,
    )
}

/// A strict link at a reference; `whole` are the links with this one.
fn take<'a, R: CoreRows<'a>>(
    rows: &R,
    base: Value,
    key: Key,
    op: &CoreOp,
    strict: Strict<'a, R::Mark>,
    whole: Links<'a>,
    st: &mut StateOf<'a, R>,
) -> Moved<'a, R::Mark>
    ensures { Steps result st.new (take_whole (R.rows rows.now) (R.core rows.now) base key strict.entry whole.entry st.old (taking op.now)) }
{
    match op {
        CoreOp::Put | CoreOp::Delete => parts(rows, strict, st),
        CoreOp::Call | CoreOp::Update(_) | CoreOp::Step(_) => fetch(rows, base, key, strict, st),
        _ => reads(rows, Frame::After(whole), base, &key, st),
    }
}

/// A link at a reference; `whole` are the links with this one.
#[tactic(auto, using(crate::proofs::Takings::take_by))]
fn go_reference<'a, R: CoreRows<'a>>(
    rows: &R,
    base: Value,
    key: Key,
    link: &'a CoreLink,
    links: Links<'a>,
    whole: Links<'a>,
    st: &mut StateOf<'a, R>,
) -> Moved<'a, R::Mark>
    requires { whole ≡ link.now ∷ links }
    ensures { Steps result st.new (go_reference (R.rows rows.now) (R.core rows.now) base key link.now links.entry st.old (out-CoreLink link.now)) }
{
    match link {
        CoreLink::Strict { op, parts, site } => {
            let current = Current::Reference(base.share()?, key.share()?);
            let strict = strict_of(rows, op, *site, current, parts.as_slice(), links);
            take(rows, base, key, op, strict, whole, st)
        }
        _ => reads(rows, Frame::After(whole), base, &key, st),
    }
}

fn otherwise<'a, R: CoreRows<'a>>(
    other: &'a Option<Boxed<CoreExpr>>,
    links: Links<'a>,
    st: &mut StateOf<'a, R>,
) -> Moved<'a, R::Mark>
    ensures { Steps result st.new (otherwise other.now links.entry st.old) }
{
    match other {
        None => Ok(Move::has(Value::Undefined, links)),
        Some(other) => begin(Frame::After(links), Expr::of(other.get()), st),
    }
}

/// A lazy link (12.12, 12.13).
fn lazy<'a, R: CoreRows<'a>>(
    when: When,
    taken: &'a CoreExpr,
    other: &'a Option<Boxed<CoreExpr>>,
    links: Links<'a>,
    value: Value,
    st: &mut StateOf<'a, R>,
) -> Moved<'a, R::Mark>
    ensures { Steps result st.new (lazy taken.now other.now links.entry st.old value when) }
{
    match (when, truth_of(&value)) {
        (When::Truthy, false) | (When::Falsy, true) => Ok(Move::has(value, links)),
        (When::Choice, false) => otherwise::<R>(other, links, st),
        (When::Truthy | When::Choice, true) | (When::Falsy, false) => {
            begin(Frame::After(links), Expr::of(taken), st)
        }
    }
}

fn lazy_current<'a, R: CoreRows<'a>>(
    when: When,
    taken: &'a CoreExpr,
    other: &'a Option<Boxed<CoreExpr>>,
    links: Links<'a>,
    current: Current<R::Mark>,
    st: &mut StateOf<'a, R>,
) -> Moved<'a, R::Mark>
    ensures { Steps result st.new (with_current current st.old (λ v. lazy taken.now other.now links.entry st.old v when)) }
{
    match user_at(current) {
        None => unlawful(st),
        Some(value) => lazy::<R>(when, taken, other, links, value, st),
    }
}

/// A link at a value.
fn go_value<'a, R: CoreRows<'a>>(
    rows: &R,
    current: Current<R::Mark>,
    link: &'a CoreLink,
    links: Links<'a>,
    st: &mut StateOf<'a, R>,
) -> Moved<'a, R::Mark>
    ensures { Steps result st.new (go_value (R.rows rows.now) (R.core rows.now) current links.entry st.old (out-CoreLink link.now)) }
{
    match link {
        CoreLink::Strict {
            op,
            parts: list,
            site,
        } => {
            let strict = strict_of(rows, op, *site, current, list.as_slice(), links);
            parts(rows, strict, st)
        }
        CoreLink::Lazy { when, yes, no } => {
            lazy_current::<R>(*when, yes.get(), no, links, current, st)
        }
        CoreLink::Run { body } => run(Frame::After(links), Stats::of(body.as_slice()), st),
    }
}

/// The value is handed on behind the last link; a reference is read first.
fn go_end<'a, R: CoreRows<'a>>(
    rows: &R,
    current: Current<R::Mark>,
    st: &StateOf<'a, R>,
) -> Moved<'a, R::Mark>
    ensures { Steps result st.now (go_end st.now current) }
{
    match current {
        Current::Has(value) => Ok(Move::hand(Completion::Gives(value))),
        Current::Reference(base, key) => {
            let mut operands = Items::new(rows.alloc());
            operands.push(key_operand(&key)?)?;
            let call = Operation::Get.begin(rows.alloc(), base, operands);
            Ok(Move::Goes(Control::Turn(None, call)))
        }
        _ => unlawful(st),
    }
}

fn go_link<'a, R: CoreRows<'a>>(
    rows: &R,
    current: Current<R::Mark>,
    link: &'a CoreLink,
    links: Links<'a>,
    whole: Links<'a>,
    st: &mut StateOf<'a, R>,
) -> Moved<'a, R::Mark>
    requires { whole ≡ link.now ∷ links }
    ensures { Steps result st.new (go_link (R.rows rows.now) (R.core rows.now) link.now links.entry st.old current) }
{
    match current {
        Current::Reference(base, key) => go_reference(rows, base, key, link, links, whole, st),
        current => go_value(rows, current, link, links, st),
    }
}

/// One link further; behind the last one the value is handed on.
#[tactic(auto, unfolding(core_meaning::specs::Step::go))]
pub fn go<'a, R: CoreRows<'a>>(
    rows: &R,
    current: Current<R::Mark>,
    links: Links<'a>,
    st: &mut StateOf<'a, R>,
) -> Moved<'a, R::Mark>
    ensures { Steps result st.new (go (R.rows rows.now) (R.core rows.now) current links.entry st.old) }
{
    match links.first() {
        None => go_end(rows, current, st),
        Some((link, rest)) => go_link(rows, current, link, rest, links, st),
    }
}
