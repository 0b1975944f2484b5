//! The operators that tokens are (ECMA-262, 6th edition, 12).

ghost use Rattle.std.specs.Prelude.{◌≡◌, ◌∷◌, []};
ghost use Rattle.es6_ast.specs.declared.operators.UpdateOperator.TheVariants.{IncrementBefore, DecrementBefore, IncrementAfter, DecrementAfter};
ghost use Rattle.es6_lexer.specs.declared.token.TokenKind.TheVariants.{Word};
ghost use Rattle.es6_ast.specs.declared.operators.VariableKind.TheVariants.{Var, Let, Const};
ghost use Rattle.es6_ast.specs.Grammar.{kind_word, assign_kind, binary_kind, binary_level, is_in, unary_kind, update_kind};
ghost use Rattle.es6_ast.specs.Tokens.{Read, read};
ghost use Rattle.es6_reading.specs.Words.{after_at, assign_operators, binary_operators, look_up, unary_operators};
ghost use Rattle.es6_cursor.specs.Takes.{unless_in};
ghost use Rattle.es6_cursor.specs.Tables.{after_mark, assign_mark, before_mark, binary_mark, binary_word, kind_word_of, lexical_word_of, unary_mark, unary_word};

use es6_ast::{AssignOperator, BinaryOperator, Flags, UnaryOperator, UpdateOperator, VariableKind};
use es6_lexer::{Punctuator, Token, TokenKind};
use shared_text::Name;

/// An operator before its operand, but `++` and `--` (12.5).
#[tactic(auto, using(crate::proofs::Tables::unary_marks, crate::proofs::Tables::unary_words), unfolding(es6_reading::specs::Words::unary_operators))]
pub fn unary(kind: &TokenKind) -> Option<UnaryOperator>
    ensures { result ≡ look_up unary_kind unary_operators (Read kind.now) }
{
    match kind {
        TokenKind::Word(name) => unary_word(name),
        TokenKind::Punctuator(punctuator) => unary_mark(*punctuator),
        _ => None,
    }
}

fn unary_word(name: &Name) -> Option<UnaryOperator>
    ensures { result ≡ unary_word name.now }
{
    if name.is(b"delete") {
        Some(UnaryOperator::Delete)
    } else if name.is(b"void") {
        Some(UnaryOperator::Void)
    } else if name.is(b"typeof") {
        Some(UnaryOperator::Typeof)
    } else {
        None
    }
}

fn unary_mark(punctuator: Punctuator) -> Option<UnaryOperator>
    ensures { result ≡ unary_mark punctuator }
{
    match punctuator {
        Punctuator::Plus => Some(UnaryOperator::Plus),
        Punctuator::Minus => Some(UnaryOperator::Minus),
        Punctuator::Tilde => Some(UnaryOperator::BitNot),
        Punctuator::Exclamation => Some(UnaryOperator::Not),
        _ => None,
    }
}

/// `++` and `--` before their operand (12.5.7, 12.5.8).
#[tactic(auto, using(crate::proofs::Tables::before_marks))]
pub fn before(kind: &TokenKind) -> Option<UpdateOperator>
    ensures { result ≡ look_up update_kind (IncrementBefore ∷ DecrementBefore ∷ []) (Read kind.now) }
{
    match kind {
        TokenKind::Punctuator(punctuator) => before_mark(*punctuator),
        _ => None,
    }
}

fn before_mark(punctuator: Punctuator) -> Option<UpdateOperator>
    ensures { result ≡ before_mark punctuator }
{
    match punctuator {
        Punctuator::PlusPlus => Some(UpdateOperator::IncrementBefore),
        Punctuator::MinusMinus => Some(UpdateOperator::DecrementBefore),
        _ => None,
    }
}

#[tactic(auto, using(crate::proofs::Tables::after_marks))]
fn after_on_line(kind: &TokenKind) -> Option<UpdateOperator>
    ensures { result ≡ look_up update_kind (IncrementAfter ∷ DecrementAfter ∷ []) (Read kind.now) }
{
    match kind {
        TokenKind::Punctuator(punctuator) => after_mark(*punctuator),
        _ => None,
    }
}

fn after_mark(punctuator: Punctuator) -> Option<UpdateOperator>
    ensures { result ≡ after_mark punctuator }
{
    match punctuator {
        Punctuator::PlusPlus => Some(UpdateOperator::IncrementAfter),
        Punctuator::MinusMinus => Some(UpdateOperator::DecrementAfter),
        _ => None,
    }
}

/// `++` and `--` after their operand, on its line (12.4).
pub fn after(token: &Token) -> Option<UpdateOperator>
    ensures { result ≡ after_at (read token.now) }
{
    if token.newline {
        None
    } else {
        after_on_line(&token.kind)
    }
}

/// An assignment operator (12.14).
#[tactic(auto, using(crate::proofs::Tables::assign_marks), unfolding(es6_reading::specs::Words::assign_operators))]
pub fn assign(kind: &TokenKind) -> Option<AssignOperator>
    ensures { result ≡ look_up assign_kind assign_operators (Read kind.now) }
{
    match kind {
        TokenKind::Punctuator(punctuator) => assign_mark(*punctuator),
        _ => None,
    }
}

fn assign_mark(punctuator: Punctuator) -> Option<AssignOperator>
    ensures { result ≡ assign_mark punctuator }
{
    match punctuator {
        Punctuator::Assign => Some(AssignOperator::Assign),
        Punctuator::StarAssign => Some(AssignOperator::MultiplyAssign),
        Punctuator::SlashAssign => Some(AssignOperator::DivideAssign),
        Punctuator::PercentAssign => Some(AssignOperator::RemainderAssign),
        Punctuator::PlusAssign => Some(AssignOperator::AddAssign),
        Punctuator::MinusAssign => Some(AssignOperator::SubtractAssign),
        Punctuator::ShiftLeftAssign => Some(AssignOperator::ShiftLeftAssign),
        Punctuator::ShiftRightAssign => Some(AssignOperator::ShiftRightAssign),
        Punctuator::ShiftRightUnsignedAssign => Some(AssignOperator::ShiftRightUnsignedAssign),
        Punctuator::AmpersandAssign => Some(AssignOperator::BitAndAssign),
        Punctuator::CaretAssign => Some(AssignOperator::BitXorAssign),
        Punctuator::BarAssign => Some(AssignOperator::BitOrAssign),
        Punctuator::StarStarAssign => Some(AssignOperator::PowerAssign),
        _ => None,
    }
}

/// An operator between two operands (12.6 to 12.12).
#[tactic(auto, using(crate::proofs::Tables::binary_marks, crate::proofs::Tables::binary_words), unfolding(es6_reading::specs::Words::binary_operators))]
pub fn binary(kind: &TokenKind) -> Option<BinaryOperator>
    ensures { result ≡ look_up binary_kind binary_operators (Read kind.now) }
{
    match kind {
        TokenKind::Word(name) => binary_word(name),
        TokenKind::Punctuator(punctuator) => binary_mark(*punctuator),
        _ => None,
    }
}

fn binary_word(name: &Name) -> Option<BinaryOperator>
    ensures { result ≡ binary_word name.now }
{
    if name.is(b"instanceof") {
        Some(BinaryOperator::InstanceOf)
    } else if name.is(b"in") {
        Some(BinaryOperator::In)
    } else {
        None
    }
}

fn binary_mark(punctuator: Punctuator) -> Option<BinaryOperator>
    ensures { result ≡ binary_mark punctuator }
{
    match punctuator {
        Punctuator::BarBar => Some(BinaryOperator::Or),
        Punctuator::AmpersandAmpersand => Some(BinaryOperator::And),
        Punctuator::Bar => Some(BinaryOperator::BitOr),
        Punctuator::Caret => Some(BinaryOperator::BitXor),
        Punctuator::Ampersand => Some(BinaryOperator::BitAnd),
        Punctuator::Equals => Some(BinaryOperator::Equal),
        Punctuator::NotEquals => Some(BinaryOperator::NotEqual),
        Punctuator::StrictEquals => Some(BinaryOperator::Same),
        Punctuator::StrictNotEquals => Some(BinaryOperator::NotSame),
        Punctuator::LessThan => Some(BinaryOperator::Less),
        Punctuator::GreaterThan => Some(BinaryOperator::Greater),
        Punctuator::LessOrEqual => Some(BinaryOperator::AtMost),
        Punctuator::GreaterOrEqual => Some(BinaryOperator::AtLeast),
        Punctuator::ShiftLeft => Some(BinaryOperator::ShiftLeft),
        Punctuator::ShiftRight => Some(BinaryOperator::ShiftRight),
        Punctuator::ShiftRightUnsigned => Some(BinaryOperator::ShiftRightUnsigned),
        Punctuator::Plus => Some(BinaryOperator::Add),
        Punctuator::Minus => Some(BinaryOperator::Subtract),
        Punctuator::Star => Some(BinaryOperator::Multiply),
        Punctuator::Slash => Some(BinaryOperator::Divide),
        Punctuator::Percent => Some(BinaryOperator::Remainder),
        _ => None,
    }
}

/// An operator between two operands. Where the expression has no `in`, that is none.
pub fn next_binary(kind: &TokenKind, flags: Flags) -> Option<BinaryOperator>
    ensures { result ≡ unless_in flags (look_up binary_kind binary_operators (Read kind.now)) }
{
    let operator = binary(kind)?;
    if !flags.has_in && is_in(operator) {
        None
    } else {
        Some(operator)
    }
}

/// The level of the expressions that have the operator: 3 for `||` to 12 for `*` (12.6 to 12.12).
pub fn binary_level(operator: BinaryOperator) -> u8
    ensures { result ≡ binary_level operator }
{
    match operator {
        BinaryOperator::Or => 3,
        BinaryOperator::And => 4,
        BinaryOperator::BitOr => 5,
        BinaryOperator::BitXor => 6,
        BinaryOperator::BitAnd => 7,
        BinaryOperator::Equal
        | BinaryOperator::NotEqual
        | BinaryOperator::Same
        | BinaryOperator::NotSame => 8,
        BinaryOperator::Less
        | BinaryOperator::Greater
        | BinaryOperator::AtMost
        | BinaryOperator::AtLeast
        | BinaryOperator::InstanceOf
        | BinaryOperator::In => 9,
        BinaryOperator::ShiftLeft
        | BinaryOperator::ShiftRight
        | BinaryOperator::ShiftRightUnsigned => 10,
        BinaryOperator::Add | BinaryOperator::Subtract => 11,
        BinaryOperator::Multiply | BinaryOperator::Divide | BinaryOperator::Remainder => 12,
    }
}

fn is_in(operator: BinaryOperator) -> bool
    ensures { result ≡ is_in operator }
{
    match operator {
        BinaryOperator::In => true,
        _ => false,
    }
}

/// The word that declares variables (13.3).
#[tactic(auto, using(crate::proofs::Tables::kind_words))]
pub fn kind(kind: &TokenKind) -> Option<VariableKind>
    ensures { result ≡ look_up (λ kind. Word (kind_word kind)) (Var ∷ Let ∷ Const ∷ []) (Read kind.now) }
{
    match kind {
        TokenKind::Word(name) => kind_word_of(name),
        _ => None,
    }
}

fn kind_word_of(name: &Name) -> Option<VariableKind>
    ensures { result ≡ kind_word_of name.now }
{
    if name.is(b"var") {
        Some(VariableKind::Var)
    } else {
        lexical_word_of(name)
    }
}

/// `let` and `const` (13.3.1).
#[tactic(auto, using(crate::proofs::Tables::lexical_words))]
pub fn lexical_kind(kind: &TokenKind) -> Option<VariableKind>
    ensures { result ≡ look_up (λ kind. Word (kind_word kind)) (Let ∷ Const ∷ []) (Read kind.now) }
{
    match kind {
        TokenKind::Word(name) => lexical_word_of(name),
        _ => None,
    }
}

fn lexical_word_of(name: &Name) -> Option<VariableKind>
    ensures { result ≡ lexical_word_of name.now }
{
    if name.is(b"let") {
        Some(VariableKind::Let)
    } else if name.is(b"const") {
        Some(VariableKind::Const)
    } else {
        None
    }
}
