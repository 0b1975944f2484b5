//! What stands where no construct may open any more.

ghost use Rattle.std.specs.Prelude.{◌≡◌};
ghost use Rattle.es5_cursor.specs.Reads.{Reads};
ghost use Rattle.es5_reading.specs.Parser.{next_is};
ghost use Rattle.es5_reading.specs.Statements.{begins_statement, is_any_word, statement_at_limit, statement_words};
ghost use Rattle.es5_reading.specs.Expressions.{callee_at_limit, expression_at_limit};
ghost use Rattle.es5_text.specs.Tie.{limit_of};
ghost use Rattle.es5_tokens.specs.Tokens.{kind5, token5};

use es5_ast::Stat5;
use es5_cursor::{Cursor, Halt, Nested, Stop, begins_expression, is_mark, is_one_of, is_word};
use es5_nodes::Read;
use es5_read_expressions::no_expression;
use es5_tokens::{Punctuator, Token, TokenKind};
use sqlite_items::Boxed;

/// The words that begin a statement, but `return`.
const STATEMENT_WORDS: [&[u8]; 11] = [
    b"var",
    b"if",
    b"do",
    b"while",
    b"for",
    b"switch",
    b"try",
    b"continue",
    b"break",
    b"throw",
    b"debugger",
];

fn is_statement_word(kind: &TokenKind) -> bool
    ensures { result ≡ is_any_word statement_words (kind5 kind.now) }
{
    match kind {
        TokenKind::Word(name) => is_one_of(name.bytes(), &STATEMENT_WORDS),
        _ => false,
    }
}

/// Whether the token begins a statement that is no declaration.
#[tactic(auto, unfolding(es5_reading::specs::Statements::begins_statement))]
fn begins_statement(token: &Token, inside: bool) -> bool
    ensures { result ≡ begins_statement inside (token5 token.now) }
{
    is_mark(&token.kind, Punctuator::LeftBrace)
        | is_mark(&token.kind, Punctuator::Semicolon)
        | is_statement_word(&token.kind)
        | (inside & is_word(&token.kind, b"return"))
        | (begins_expression(token) & !is_word(&token.kind, b"function"))
}

fn next_begins_statement(cursor: &Cursor, inside: bool) -> bool
    ensures { result ≡ next_is (begins_statement inside) cursor.now.tokens }
{
    match cursor.rest().first() {
        Some(token) => begins_statement(token, inside),
        None => false,
    }
}

/// The fault of a statement, which would be one construct too many.
#[tactic(auto, using(es5_cursor::proofs::Rules::groups), unfolding(es5_reading::specs::Statements::statement_at_limit))]
#[inline(never)]
pub fn statement_at_limit(cursor: &Cursor, inside: bool) -> Result<Boxed<Stat5>, Halt>
    ensures { Reads (statement_at_limit inside cursor.now) result cursor.now }
{
    if next_begins_statement(cursor, inside) {
        return Err(Halt::Stopped(Stop::Depth));
    }
    if cursor.next_is_word(b"function") {
        return Err(Halt::Stopped(Stop::Syntax));
    }
    if cursor.next_is_word(b"with") {
        return Err(Halt::Stopped(Stop::Outside(2)));
    }
    if cursor.next_is_division() {
        return Err(Halt::Stopped(Stop::Outside(4)));
    }
    Err(Halt::Stopped(Stop::Syntax))
}

/// The fault where an expression begins.
#[tactic(auto, using(es5_cursor::proofs::Rules::groups), unfolding(es5_reading::specs::Expressions::expression_at_limit))]
fn expression_at_limit(cursor: &Cursor) -> Result<Read, Halt>
    ensures { Reads (expression_at_limit cursor.now) result cursor.now }
{
    if cursor.next_begins_expression() {
        return Err(Halt::Stopped(Stop::Depth));
    }
    no_expression(cursor)
}

/// The same after `new`.
#[tactic(auto, using(es5_cursor::proofs::Rules::groups), unfolding(es5_reading::specs::Expressions::callee_at_limit))]
fn callee_at_limit(cursor: &Cursor) -> Result<Read, Halt>
    ensures { Reads (callee_at_limit cursor.now) result cursor.now }
{
    if cursor.next_begins_operand() {
        return Err(Halt::Stopped(Stop::Depth));
    }
    no_expression(cursor)
}

/// The fault of an expression of the kind.
#[tactic(auto, unfolding(crate::specs::Tie::limit_of))]
#[inline(never)]
pub fn nested_at_limit(cursor: &Cursor, kind: Nested) -> Result<Read, Halt>
    ensures { Reads (limit_of kind cursor.now) result cursor.now }
{
    match kind {
        Nested::Sequence | Nested::Assignment | Nested::Unary => expression_at_limit(cursor),
        Nested::Callee => callee_at_limit(cursor),
    }
}
