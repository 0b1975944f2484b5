//! The operators that tokens are (ECMA-262, 5.1 edition, 11).

ghost use Rattle.std.specs.Prelude.{◌≡◌, ◌∷◌, []};
ghost use Rattle.es5_ast.specs.declared.operators.UpdateOperator5.TheVariants.{IncrementBefore, DecrementBefore, IncrementAfter, DecrementAfter};
ghost use Rattle.es5_ast.specs.Grammar.{assign_kind, binary_kind, binary_level, is_in, unary_kind, update_kind};
ghost use Rattle.es5_tokens.specs.Tokens.{kind5, token5};
ghost use Rattle.es5_reading.specs.Expressions.{after_at, assign_operators, binary_operators, look_up, unary_operators};
ghost use Rattle.es5_cursor.specs.Takes.{unless_in};
ghost use Rattle.es5_cursor.specs.Tables.{after_mark, assign_mark, before_mark, binary_mark, binary_word, unary_mark, unary_word};

use es5_ast::{AssignOperator5, BinaryOperator5, UnaryOperator5, UpdateOperator5};
use es5_tokens::{Punctuator, Token, TokenKind};
use shared_text::Name;

/// An operator before its operand, but `++` and `--` (11.4).
#[tactic(auto, using(crate::proofs::Tables::unary_marks, crate::proofs::Tables::unary_words), unfolding(es5_reading::specs::Expressions::unary_operators))]
pub fn unary(kind: &TokenKind) -> Option<UnaryOperator5>
    ensures { result ≡ look_up unary_kind unary_operators (kind5 kind.now) }
{
    match kind {
        TokenKind::Word(name) => unary_word(name),
        TokenKind::Punctuator(punctuator) => unary_mark(*punctuator),
        _ => None,
    }
}

fn unary_word(name: &Name) -> Option<UnaryOperator5>
    ensures { result ≡ unary_word name.now }
{
    if name.is(b"delete") {
        Some(UnaryOperator5::Delete)
    } else if name.is(b"void") {
        Some(UnaryOperator5::Void)
    } else if name.is(b"typeof") {
        Some(UnaryOperator5::Typeof)
    } else {
        None
    }
}

fn unary_mark(punctuator: Punctuator) -> Option<UnaryOperator5>
    ensures { result ≡ unary_mark punctuator }
{
    match punctuator {
        Punctuator::Plus => Some(UnaryOperator5::Plus),
        Punctuator::Minus => Some(UnaryOperator5::Minus),
        Punctuator::Tilde => Some(UnaryOperator5::BitNot),
        Punctuator::Exclamation => Some(UnaryOperator5::Not),
        _ => None,
    }
}

/// `++` and `--` before their operand (11.4.4, 11.4.5).
#[tactic(auto, using(crate::proofs::Tables::before_marks))]
pub fn before(kind: &TokenKind) -> Option<UpdateOperator5>
    ensures { result ≡ look_up update_kind (IncrementBefore ∷ DecrementBefore ∷ []) (kind5 kind.now) }
{
    match kind {
        TokenKind::Punctuator(punctuator) => before_mark(*punctuator),
        _ => None,
    }
}

fn before_mark(punctuator: Punctuator) -> Option<UpdateOperator5>
    ensures { result ≡ before_mark punctuator }
{
    match punctuator {
        Punctuator::PlusPlus => Some(UpdateOperator5::IncrementBefore),
        Punctuator::MinusMinus => Some(UpdateOperator5::DecrementBefore),
        _ => None,
    }
}

#[tactic(auto, using(crate::proofs::Tables::after_marks))]
fn after_on_line(kind: &TokenKind) -> Option<UpdateOperator5>
    ensures { result ≡ look_up update_kind (IncrementAfter ∷ DecrementAfter ∷ []) (kind5 kind.now) }
{
    match kind {
        TokenKind::Punctuator(punctuator) => after_mark(*punctuator),
        _ => None,
    }
}

fn after_mark(punctuator: Punctuator) -> Option<UpdateOperator5>
    ensures { result ≡ after_mark punctuator }
{
    match punctuator {
        Punctuator::PlusPlus => Some(UpdateOperator5::IncrementAfter),
        Punctuator::MinusMinus => Some(UpdateOperator5::DecrementAfter),
        _ => None,
    }
}

/// `++` and `--` after their operand, on its line (11.3).
pub fn after(token: &Token) -> Option<UpdateOperator5>
    ensures { result ≡ after_at (token5 token.now) }
{
    if token.after_line {
        None
    } else {
        after_on_line(&token.kind)
    }
}

/// An assignment operator (11.13).
#[tactic(auto, using(crate::proofs::Tables::assign_marks), unfolding(es5_reading::specs::Expressions::assign_operators))]
pub fn assign(kind: &TokenKind) -> Option<AssignOperator5>
    ensures { result ≡ look_up assign_kind assign_operators (kind5 kind.now) }
{
    match kind {
        TokenKind::Punctuator(punctuator) => assign_mark(*punctuator),
        _ => None,
    }
}

fn assign_mark(punctuator: Punctuator) -> Option<AssignOperator5>
    ensures { result ≡ assign_mark punctuator }
{
    match punctuator {
        Punctuator::Assign => Some(AssignOperator5::Assign),
        Punctuator::StarAssign => Some(AssignOperator5::MultiplyAssign),
        Punctuator::SlashAssign => Some(AssignOperator5::DivideAssign),
        Punctuator::PercentAssign => Some(AssignOperator5::RemainderAssign),
        Punctuator::PlusAssign => Some(AssignOperator5::AddAssign),
        Punctuator::MinusAssign => Some(AssignOperator5::SubtractAssign),
        Punctuator::ShiftLeftAssign => Some(AssignOperator5::ShiftLeftAssign),
        Punctuator::ShiftRightAssign => Some(AssignOperator5::ShiftRightAssign),
        Punctuator::ShiftRightUnsignedAssign => Some(AssignOperator5::ShiftRightUnsignedAssign),
        Punctuator::AmpersandAssign => Some(AssignOperator5::BitAndAssign),
        Punctuator::CaretAssign => Some(AssignOperator5::BitXorAssign),
        Punctuator::BarAssign => Some(AssignOperator5::BitOrAssign),
        _ => None,
    }
}

/// An operator between two operands (11.5 to 11.11).
#[tactic(auto, using(crate::proofs::Tables::binary_marks, crate::proofs::Tables::binary_words), unfolding(es5_reading::specs::Expressions::binary_operators))]
pub fn binary(kind: &TokenKind) -> Option<BinaryOperator5>
    ensures { result ≡ look_up binary_kind binary_operators (kind5 kind.now) }
{
    match kind {
        TokenKind::Word(name) => binary_word(name),
        TokenKind::Punctuator(punctuator) => binary_mark(*punctuator),
        _ => None,
    }
}

fn binary_word(name: &Name) -> Option<BinaryOperator5>
    ensures { result ≡ binary_word name.now }
{
    if name.is(b"instanceof") {
        Some(BinaryOperator5::InstanceOf)
    } else if name.is(b"in") {
        Some(BinaryOperator5::In)
    } else {
        None
    }
}

fn binary_mark(punctuator: Punctuator) -> Option<BinaryOperator5>
    ensures { result ≡ binary_mark punctuator }
{
    match punctuator {
        Punctuator::BarBar => Some(BinaryOperator5::Or),
        Punctuator::AmpersandAmpersand => Some(BinaryOperator5::And),
        Punctuator::Bar => Some(BinaryOperator5::BitOr),
        Punctuator::Caret => Some(BinaryOperator5::BitXor),
        Punctuator::Ampersand => Some(BinaryOperator5::BitAnd),
        Punctuator::Equals => Some(BinaryOperator5::Equal),
        Punctuator::NotEquals => Some(BinaryOperator5::NotEqual),
        Punctuator::StrictEquals => Some(BinaryOperator5::Same),
        Punctuator::StrictNotEquals => Some(BinaryOperator5::NotSame),
        Punctuator::LessThan => Some(BinaryOperator5::Less),
        Punctuator::GreaterThan => Some(BinaryOperator5::Greater),
        Punctuator::LessOrEqual => Some(BinaryOperator5::AtMost),
        Punctuator::GreaterOrEqual => Some(BinaryOperator5::AtLeast),
        Punctuator::ShiftLeft => Some(BinaryOperator5::ShiftLeft),
        Punctuator::ShiftRight => Some(BinaryOperator5::ShiftRight),
        Punctuator::ShiftRightUnsigned => Some(BinaryOperator5::ShiftRightUnsigned),
        Punctuator::Plus => Some(BinaryOperator5::Add),
        Punctuator::Minus => Some(BinaryOperator5::Subtract),
        Punctuator::Star => Some(BinaryOperator5::Multiply),
        Punctuator::Slash => Some(BinaryOperator5::Divide),
        Punctuator::Percent => Some(BinaryOperator5::Remainder),
        _ => None,
    }
}

/// An operator between two operands. Where no `in` may stand bare, that is none.
pub fn next_binary(kind: &TokenKind, no_in: bool) -> Option<BinaryOperator5>
    ensures { result ≡ unless_in no_in (look_up binary_kind binary_operators (kind5 kind.now)) }
{
    let operator = binary(kind)?;
    if no_in && is_in(operator) {
        None
    } else {
        Some(operator)
    }
}

/// The level of the expressions that have the operator: 3 for `||` to 12 for `*` (11.5 to 11.11).
pub fn binary_level(operator: BinaryOperator5) -> u8
    ensures { result ≡ binary_level operator }
{
    match operator {
        BinaryOperator5::Or => 3,
        BinaryOperator5::And => 4,
        BinaryOperator5::BitOr => 5,
        BinaryOperator5::BitXor => 6,
        BinaryOperator5::BitAnd => 7,
        BinaryOperator5::Equal
        | BinaryOperator5::NotEqual
        | BinaryOperator5::Same
        | BinaryOperator5::NotSame => 8,
        BinaryOperator5::Less
        | BinaryOperator5::Greater
        | BinaryOperator5::AtMost
        | BinaryOperator5::AtLeast
        | BinaryOperator5::InstanceOf
        | BinaryOperator5::In => 9,
        BinaryOperator5::ShiftLeft
        | BinaryOperator5::ShiftRight
        | BinaryOperator5::ShiftRightUnsigned => 10,
        BinaryOperator5::Add | BinaryOperator5::Subtract => 11,
        BinaryOperator5::Multiply | BinaryOperator5::Divide | BinaryOperator5::Remainder => 12,
    }
}

fn is_in(operator: BinaryOperator5) -> bool
    ensures { result ≡ is_in operator }
{
    match operator {
        BinaryOperator5::In => true,
        _ => false,
    }
}
