//! What is made of expressions that are done (ECMA-262, 5.1 edition, 11).

ghost use Rattle.std.specs.Prelude.{◌≡◌, None, Some, false, IfOk};
ghost use Rattle.core_ast.specs.Made.{act, acting, linked};
ghost use Rattle.core_ast.specs.declared.parts.CoreHead.TheVariants as head;
ghost use Rattle.core_ast.specs.declared.parts.CoreOp.TheVariants as op;
ghost use Rattle.core_ast.specs.declared.parts.Key.TheVariants as key;
ghost use Rattle.core_ast.specs.declared.tree.CoreLink.{out-CoreLink};
ghost use Rattle.core_ast.specs.declared.tree.CoreLink.TheVariants as link;
ghost use Rattle.script_lowering.specs.Expressions.{alone, assigned, assigned_name, assigned_reference, closure, conditional, deleted, is_reference, key_of, last_refers, literal_of, name_in, name_of, operated, refers_in, stepped_to, type_of, with_parts, with_unary};
ghost use Rattle.script_lowering.specs.Makers.{joined};

use crate::operators::{binary_of, compound_of, key_of, literal_of, unary_of};
use core_ast::{
    Binary, Constant, CoreExpr, CoreHead, CoreLink, CoreOp, FunctionId, Key, Unary, Update, Var,
    When, act, acting, expression, linked, variable,
};
use es_outside::Site;
use es5_ast::{AssignOperator5, BinaryOperator5, Key5, Literal5, UnaryOperator5};
use shared_text::Name;
use sqlite_items::{Boxed, Items};
use std::alloc::{AllocError, Global};

/// What joins a value to the one before it.
#[derive(Clone, Copy, Debug, PartialEq, Eq)]
pub(crate) enum Join {
    Then,
    Element,
    Index,
    Operand(BinaryOperator5),
    Assign(AssignOperator5),
}

/// 7.8
pub(crate) fn literal(alloc: Global, literal: &Literal5) -> Result<CoreExpr, AllocError>
    ensures { IfOk result (λ x. x ≡ alone (head.Constant (literal_of literal.now))) }
{
    let constant = literal_of(alloc, literal)?;
    Ok(expression(alloc, CoreHead::Constant(constant)))
}

/// A function as a value (13).
pub(crate) fn closure(alloc: Global, function: FunctionId) -> CoreExpr
    ensures { result ≡ closure function }
{
    expression(alloc, CoreHead::Function(function))
}

/// The expression, if it has no links, is this variable.
fn where_alone(var: Var, links: &[CoreLink]) -> Option<Var>
    ensures { result ≡ name_in (head.Variable var) links.now }
{
    match links {
        [] => Some(var),
        _ => None,
    }
}

/// The name that an expression is, if it is one (8.7).
fn name_of(value: &CoreExpr) -> Option<Var>
    ensures { result ≡ name_of value.now }
{
    match &value.head {
        CoreHead::Variable(var) => where_alone(*var, value.links.as_slice()),
        _ => None,
    }
}

fn refers(link: &CoreLink) -> bool
    ensures { result ≡ refers_in (out-CoreLink link.now) }
{
    match link {
        CoreLink::Strict { op, .. } => matches!(op, CoreOp::Member(_) | CoreOp::Index),
        CoreLink::Lazy { .. } | CoreLink::Run { .. } => false,
    }
}

fn refers_last(links: &[CoreLink]) -> bool
    ensures { result ≡ last_refers false links.now }
{
    let mut refers_now = false;
    for link in links {
        refers_now = refers(link);
    }
    refers_now
}

/// Whether an expression is a reference to a property (8.7).
fn is_reference(value: &CoreExpr) -> bool
    ensures { result ≡ is_reference value.now }
{
    refers_last(value.links.as_slice())
}

/// The value, and then the other.
fn acted(alloc: Global, x: CoreExpr, op: CoreOp, y: CoreExpr) -> Result<CoreExpr, AllocError>
    ensures { IfOk result (λ z. z ≡ linked x (acting op y)) }
{
    let link = acting(alloc, op, y)?;
    linked(x, link)
}

fn assigned_name(
    alloc: Global,
    var: Var,
    operator: Option<Binary>,
    value: CoreExpr,
) -> Result<CoreExpr, AllocError>
    ensures { IfOk result (λ x. x ≡ assigned_name var operator value) }
{
    let set = act(alloc, CoreOp::Set(var));
    match operator {
        None => linked(value, set),
        Some(binary) => {
            let value = acted(alloc, variable(alloc, var), CoreOp::Operator(binary), value)?;
            linked(value, act(alloc, CoreOp::Set(var)))
        }
    }
}

fn assigned_reference(
    alloc: Global,
    target: CoreExpr,
    operator: Option<Binary>,
    value: CoreExpr,
) -> Result<CoreExpr, AllocError>
    ensures { IfOk result (λ x. x ≡ assigned_reference target operator value) }
{
    match operator {
        None => acted(alloc, target, CoreOp::Put, value),
        Some(binary) => acted(alloc, target, CoreOp::Update(binary), value),
    }
}

/// 11.13
fn assigned(
    alloc: Global,
    operator: Option<Binary>,
    target: CoreExpr,
    value: CoreExpr,
) -> Result<CoreExpr, AllocError>
    ensures { IfOk result (λ x. x ≡ assigned operator target value) }
{
    match name_of(&target) {
        None => assigned_reference(alloc, target, operator, value),
        Some(var) => assigned_name(alloc, var, operator, value),
    }
}

/// 11.3, 11.4.4, 11.4.5
pub(crate) fn stepped(
    alloc: Global,
    target: CoreExpr,
    update: Update,
) -> Result<CoreExpr, AllocError>
    ensures { IfOk result (λ x. x ≡ stepped_to target update (name_of target)) }
{
    let op = match name_of(&target) {
        None => CoreOp::Step(update),
        Some(var) => CoreOp::StepVariable(update, var),
    };
    linked(target, act(alloc, op))
}

/// 11.4.1
fn deleted(alloc: Global, target: CoreExpr) -> Result<CoreExpr, AllocError>
    ensures { IfOk result (λ x. x ≡ deleted target) }
{
    if is_reference(&target) {
        return linked(target, act(alloc, CoreOp::Delete));
    }
    let truth = expression(alloc, CoreHead::Constant(Constant::Truth(true)));
    acted(alloc, target, CoreOp::Then, truth)
}

/// 11.4.3
fn type_of(alloc: Global, operand: CoreExpr) -> Result<CoreExpr, AllocError>
    ensures { IfOk result (λ x. x ≡ type_of operand (name_of operand)) }
{
    match name_of(&operand) {
        None => linked(operand, act(alloc, CoreOp::Unary(Unary::Typeof))),
        Some(var) => Ok(expression(alloc, CoreHead::TypeOf(var))),
    }
}

/// 11.4
pub(crate) fn unary(
    alloc: Global,
    operator: UnaryOperator5,
    operand: CoreExpr,
) -> Result<CoreExpr, AllocError>
    ensures { IfOk result (λ x. x ≡ with_unary operator operand) }
{
    match operator {
        UnaryOperator5::Delete => deleted(alloc, operand),
        UnaryOperator5::Typeof => type_of(alloc, operand),
        UnaryOperator5::Void
        | UnaryOperator5::Plus
        | UnaryOperator5::Minus
        | UnaryOperator5::BitNot
        | UnaryOperator5::Not => linked(operand, act(alloc, CoreOp::Unary(unary_of(operator)))),
    }
}

/// `&&` and `||` (11.11).
fn lazy(alloc: Global, when: When, x: CoreExpr, y: CoreExpr) -> Result<CoreExpr, AllocError>
    ensures { IfOk result (λ z. z ≡ linked x (link.Lazy when y None)) }
{
    let yes = Boxed::new(alloc, y)?;
    linked(
        x,
        CoreLink::Lazy {
            when,
            yes,
            no: None,
        },
    )
}

/// 11.5 to 11.11
fn operated(
    alloc: Global,
    operator: BinaryOperator5,
    x: CoreExpr,
    y: CoreExpr,
) -> Result<CoreExpr, AllocError>
    ensures { IfOk result (λ z. z ≡ operated operator x y) }
{
    match operator {
        BinaryOperator5::Or => lazy(alloc, When::Falsy, x, y),
        BinaryOperator5::And => lazy(alloc, When::Truthy, x, y),
        _ => acted(alloc, x, CoreOp::Operator(binary_of(operator)), y),
    }
}

/// A value joined to the one before it.
pub(crate) fn joined(
    alloc: Global,
    how: Join,
    x: CoreExpr,
    y: CoreExpr,
) -> Result<CoreExpr, AllocError>
    ensures { IfOk result (λ z. z ≡ joined how x y) }
{
    match how {
        Join::Then => acted(alloc, x, CoreOp::Then, y),
        Join::Element => acted(alloc, x, CoreOp::Element, y),
        Join::Index => acted(alloc, x, CoreOp::Index, y),
        Join::Operand(operator) => operated(alloc, operator, x, y),
        Join::Assign(operator) => assigned(alloc, compound_of(operator), x, y),
    }
}

/// 11.12
pub(crate) fn conditional(
    test: CoreExpr,
    yes: Boxed<CoreExpr>,
    no: Boxed<CoreExpr>,
) -> Result<CoreExpr, AllocError>
    ensures { IfOk result (λ x. x ≡ conditional test yes no) }
{
    let no = Some(no);
    let when = When::Choice;
    linked(test, CoreLink::Lazy { when, yes, no })
}

/// A call, or `new`, with its arguments (11.2.2, 11.2.3).
pub(crate) fn with_parts(
    op: CoreOp,
    site: Option<Site>,
    callee: CoreExpr,
    parts: Items<CoreExpr>,
) -> Result<CoreExpr, AllocError>
    ensures { IfOk result (λ x. x ≡ with_parts op site callee parts) }
{
    linked(callee, CoreLink::Strict { op, parts, site })
}

/// The access of a property by a word (11.2.1).
pub(crate) fn member(alloc: Global, value: CoreExpr, word: &Name) -> Result<CoreExpr, AllocError>
    ensures { IfOk result (λ x. x ≡ linked value (act (op.Member (key.WordKey word.now)))) }
{
    let key = Key::WordKey(word.copy(alloc)?);
    linked(value, act(alloc, CoreOp::Member(key)))
}

/// 11.1.4
pub(crate) fn hole(alloc: Global, list: CoreExpr) -> Result<CoreExpr, AllocError>
    ensures { IfOk result (λ x. x ≡ linked list (act op.Hole)) }
{
    linked(list, act(alloc, CoreOp::Hole))
}

/// A property of an object literal (11.1.5).
pub(crate) fn defined(
    alloc: Global,
    object: CoreExpr,
    key: &Key5,
    value: CoreExpr,
) -> Result<CoreExpr, AllocError>
    ensures { IfOk result (λ x. x ≡ linked object (acting (op.Define (key_of key.now)) value)) }
{
    let key = key_of(alloc, key)?;
    acted(alloc, object, CoreOp::Define(key), value)
}

/// 11.1.5
pub(crate) fn getter(
    alloc: Global,
    object: CoreExpr,
    key: &Key5,
    function: FunctionId,
) -> Result<CoreExpr, AllocError>
    ensures { IfOk result (λ x. x ≡ linked object (acting (op.Getter (key_of key.now)) (closure function))) }
{
    let key = key_of(alloc, key)?;
    acted(alloc, object, CoreOp::Getter(key), closure(alloc, function))
}

/// 11.1.5
pub(crate) fn setter(
    alloc: Global,
    object: CoreExpr,
    key: &Key5,
    function: FunctionId,
) -> Result<CoreExpr, AllocError>
    ensures { IfOk result (λ x. x ≡ linked object (acting (op.Setter (key_of key.now)) (closure function))) }
{
    let key = key_of(alloc, key)?;
    acted(alloc, object, CoreOp::Setter(key), closure(alloc, function))
}
