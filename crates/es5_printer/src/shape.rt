//! What decides about parentheses: levels, the operator `in`, and what an expression begins with.

ghost use Rattle.std.specs.Prelude.{◌≡◌, ◌||◌, List, map, false, codes};
ghost use Rattle.std.specs.Str.{bytes_eq};
ghost use Rattle.es5_ast.specs.Grammar.{chain_level, binary_level, is_in, is_before, some_site};
ghost use Rattle.es5_printer.specs.Pieces.{Piece, shown, link_shown, operand_shown, has_call, level_of, any_in, is_bare, in_place, begins_call, begins_of, sites_of, update_level, opens};

use es_outside::Site;
use es5_ast::{BinaryOperator5, Expr5, Link5, Operand5, UpdateOperator5};
use shared_text::Name;

/// The levels of the grammar of expressions, each of which includes the next (11.14 to 11.1).
pub(crate) const SEQUENCE: u8 = 0;

pub(crate) const ASSIGNMENT: u8 = 1;

pub(crate) const CONDITIONAL: u8 = 2;

pub(crate) const UNARY: u8 = 13;

pub(crate) const POSTFIX: u8 = 14;

pub(crate) const LEFT_HAND_SIDE: u8 = 15;

pub(crate) const CALL: u8 = 16;

pub(crate) const MEMBER: u8 = 17;

pub(crate) const PRIMARY: u8 = 18;

/// The level of an expression.
pub(crate) fn level(x: &Expr5) -> u8
    ensures { result ≡ (shown x.now).level }
{
    match x {
        Expr5::This { .. } => PRIMARY,
        Expr5::Name { .. } => PRIMARY,
        Expr5::Literal { .. } => PRIMARY,
        Expr5::ArrayList { .. } => PRIMARY,
        Expr5::ObjectList { .. } => PRIMARY,
        Expr5::Function(_) => PRIMARY,
        Expr5::Chain { links, .. } => chain_level(links.as_slice()),
        Expr5::New { .. } => PRIMARY,
        Expr5::Update { operator, .. } => update_level(*operator),
        Expr5::Unary { .. } => UNARY,
        Expr5::Binary { rest, .. } => operands_level(rest.as_slice()),
        Expr5::Conditional { .. } => CONDITIONAL,
        Expr5::Assign { .. } => ASSIGNMENT,
        Expr5::Sequence { .. } => SEQUENCE,
    }
}

fn chain_level(links: &[Link5]) -> u8
    ensures { result ≡ chain_level (has_call (map link_shown links.now)) }
{
    if has_call(links) { CALL } else { MEMBER }
}

fn has_call(links: &[Link5]) -> bool
    ensures { result ≡ has_call (map link_shown links.now) }
{
    let mut found = false;
    for link in links {
        found = found | is_call(link);
    }
    found
}

fn is_call(link: &Link5) -> bool
    ensures { result ≡ (link_shown link.now).is_call }
{
    match link {
        Link5::Member { .. } => false,
        Link5::Index { .. } => false,
        Link5::Call { .. } => true,
    }
}

/// Whether the operator stands before its operand.
pub(crate) fn is_before(operator: UpdateOperator5) -> bool
    ensures { result ≡ is_before operator }
{
    match operator {
        UpdateOperator5::IncrementBefore | UpdateOperator5::DecrementBefore => true,
        UpdateOperator5::IncrementAfter | UpdateOperator5::DecrementAfter => false,
    }
}

fn update_level(operator: UpdateOperator5) -> u8
    ensures { result ≡ update_level (is_before operator) }
{
    if is_before(operator) { UNARY } else { POSTFIX }
}

/// The level that the operators of a chain have.
pub(crate) fn operands_level(operands: &[Operand5]) -> u8
    ensures { result ≡ level_of (map operand_shown operands.now) }
{
    match operands.first() {
        None => SEQUENCE,
        Some(operand) => operand_level(operand),
    }
}

fn operand_level(operand: &Operand5) -> u8
    ensures { result ≡ binary_level (operand_shown operand.now).operator }
{
    binary_level(operand.operator)
}

fn binary_level(operator: BinaryOperator5) -> u8
    ensures { result ≡ binary_level operator }
{
    match operator {
        BinaryOperator5::Or => 3,
        BinaryOperator5::And => 4,
        BinaryOperator5::BitOr => 5,
        BinaryOperator5::BitXor => 6,
        BinaryOperator5::BitAnd => 7,
        BinaryOperator5::Equal => 8,
        BinaryOperator5::NotEqual => 8,
        BinaryOperator5::Same => 8,
        BinaryOperator5::NotSame => 8,
        BinaryOperator5::Less => 9,
        BinaryOperator5::Greater => 9,
        BinaryOperator5::AtMost => 9,
        BinaryOperator5::AtLeast => 9,
        BinaryOperator5::InstanceOf => 9,
        BinaryOperator5::In => 9,
        BinaryOperator5::ShiftLeft => 10,
        BinaryOperator5::ShiftRight => 10,
        BinaryOperator5::ShiftRightUnsigned => 10,
        BinaryOperator5::Add => 11,
        BinaryOperator5::Subtract => 11,
        BinaryOperator5::Multiply => 12,
        BinaryOperator5::Divide => 12,
        BinaryOperator5::Remainder => 12,
    }
}

/// Whether an expression has an operator `in` of its own.
fn has_in(x: &Expr5) -> bool
    ensures { result ≡ (shown x.now).has_in }
{
    match x {
        Expr5::Binary { rest, .. } => any_in(rest.as_slice()),
        Expr5::This { .. } => false,
        Expr5::Name { .. } => false,
        Expr5::Literal { .. } => false,
        Expr5::ArrayList { .. } => false,
        Expr5::ObjectList { .. } => false,
        Expr5::Function(_) => false,
        Expr5::Chain { .. } => false,
        Expr5::New { .. } => false,
        Expr5::Update { .. } => false,
        Expr5::Unary { .. } => false,
        Expr5::Conditional { .. } => false,
        Expr5::Assign { .. } => false,
        Expr5::Sequence { .. } => false,
    }
}

fn any_in(operands: &[Operand5]) -> bool
    ensures { result ≡ any_in (map operand_shown operands.now) }
{
    let mut found = false;
    for operand in operands {
        found = found | operand_is_in(operand);
    }
    found
}

fn operand_is_in(operand: &Operand5) -> bool
    ensures { result ≡ is_in (operand_shown operand.now).operator }
{
    is_in(operand.operator)
}

fn is_in(operator: BinaryOperator5) -> bool
    ensures { result ≡ is_in operator }
{
    matches!(&operator, BinaryOperator5::In)
}

/// Whether an expression stands without parentheses where this level is the least, and `in` may not stand bare if
/// `no_in` says so.
pub(crate) fn is_bare(x: &Expr5, no_in: bool, least: u8) -> bool
    ensures { result ≡ is_bare (shown x.now) no_in least }
{
    (least <= level(x)) & !(no_in & has_in(x))
}

/// Whether a call with a site begins what is written for an expression.
pub(crate) fn begins_call(x: &Expr5, least: u8) -> bool
    ensures { (rest : List Piece) → result ≡ begins_call (in_place (shown x.now) false least rest) }
{
    if !is_bare(x, false, least) {
        return false;
    }
    match x {
        Expr5::Chain { head, links, .. } => {
            has_site(links.as_slice()) | begins_call(head.get(), PRIMARY)
        }
        Expr5::Update {
            operator,
            target,
            ..
        } => {
            if is_before(*operator) {
                false
            } else {
                begins_call(target.get(), LEFT_HAND_SIDE)
            }
        }
        Expr5::Binary { first, rest, .. } => {
            begins_call(first.get(), operands_level(rest.as_slice()) + 1)
        }
        Expr5::Conditional { test, .. } => begins_call(test.get(), CONDITIONAL + 1),
        Expr5::Assign { target, .. } => begins_call(target.get(), LEFT_HAND_SIDE),
        Expr5::Sequence { first, .. } => begins_call(first.get(), ASSIGNMENT),
        Expr5::This { .. } => false,
        Expr5::Name { .. } => false,
        Expr5::Literal { .. } => false,
        Expr5::ArrayList { .. } => false,
        Expr5::ObjectList { .. } => false,
        Expr5::Function(_) => false,
        Expr5::New { .. } => false,
        Expr5::Unary { .. } => false,
    }
}

/// Whether one of the links is a call with a site.
fn has_site(links: &[Link5]) -> bool
    ensures { (rest : List Piece) → begins_call (begins_of (map link_shown links.now) rest) ≡ (result || begins_call rest) }
{
    let mut found = false;
    for link in links {
        found = found | link_has_site(link);
    }
    found
}

fn link_has_site(link: &Link5) -> bool
    ensures { (rest : List Piece) → begins_call (sites_of (link_shown link.now).sites rest) ≡ (result || begins_call rest) }
{
    match link {
        Link5::Member { .. } => false,
        Link5::Index { .. } => false,
        Link5::Call { site, .. } => has_some_site(*site),
    }
}

fn has_some_site(site: Option<Site>) -> bool
    ensures { (rest : List Piece) → begins_call (sites_of (some_site site) rest) ≡ (result || begins_call rest) }
{
    match site {
        None => false,
        Some(_) => true,
    }
}

/// Whether a name is `function`, which no name of an expression is.
fn is_function(name: &Name) -> bool
    ensures { result ≡ bytes_eq name.now (codes "function") }
{
    name.bytes() == b"function".as_slice()
}

/// Whether `{` or `function` is the first token that is written for an expression.
pub(crate) fn opens(x: &Expr5, least: u8) -> bool
    ensures { (rest : List Piece) → result ≡ opens (in_place (shown x.now) false least rest) }
{
    if !is_bare(x, false, least) {
        return false;
    }
    match x {
        Expr5::ObjectList { .. } => true,
        Expr5::Function(_) => true,
        Expr5::Chain { head, .. } => opens(head.get(), PRIMARY),
        Expr5::Update {
            operator,
            target,
            ..
        } => {
            if is_before(*operator) {
                false
            } else {
                opens(target.get(), LEFT_HAND_SIDE)
            }
        }
        Expr5::Binary { first, rest, .. } => {
            opens(first.get(), operands_level(rest.as_slice()) + 1)
        }
        Expr5::Conditional { test, .. } => opens(test.get(), CONDITIONAL + 1),
        Expr5::Assign { target, .. } => opens(target.get(), LEFT_HAND_SIDE),
        Expr5::Sequence { first, .. } => opens(first.get(), ASSIGNMENT),
        Expr5::This { .. } => false,
        Expr5::Name { name, .. } => is_function(name),
        Expr5::Literal { .. } => false,
        Expr5::ArrayList { .. } => false,
        Expr5::New { .. } => false,
        Expr5::Unary { .. } => false,
    }
}
