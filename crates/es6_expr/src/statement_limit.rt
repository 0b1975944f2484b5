//! Statements where no construct may open any more.

ghost use Rattle.std.specs.Prelude.{◌≡◌};
ghost use Rattle.es6_ast.specs.Tokens.{Read, read};
ghost use Rattle.es6_reading.specs.Parser.{next_is};
ghost use Rattle.es6_reading.specs.Statements.{begins_statement, may_declare, statement_at_limit, statement_words};
ghost use Rattle.es6_reading.specs.Words.{is_any_word};
ghost use Rattle.es6_cursor.specs.Reads.{ReadsAs};
ghost use Rattle.es6_expr.specs.Limits.{begins_other};

use es6_cursor::{Cursor, Flags, Halt, Stand, Stop, is_among, is_mark, is_word};
use es6_lexer::{Punctuator, Token, TokenKind};
use es6_makers::MakesSimpleStatements;

/// The words that begin a statement, but `return`.
const STATEMENT_WORDS: [&[u8]; 11] = [
    b"var",
    b"if",
    b"do",
    b"while",
    b"for",
    b"switch",
    b"try",
    b"continue",
    b"break",
    b"throw",
    b"debugger",
];

fn is_statement_word(kind: &TokenKind) -> bool
    ensures { result ≡ is_any_word statement_words (Read kind.now) }
{
    match kind {
        TokenKind::Word(name) => is_among(&STATEMENT_WORDS, name.bytes()),
        _ => false,
    }
}

/// Whether the token begins no declaration that may not stand there.
fn may_declare(token: &Token, stand: Stand) -> bool
    ensures { result ≡ may_declare stand (read token.now) }
{
    match stand {
        Stand::Listed => true,
        Stand::Under => !(is_word(&token.kind, b"function") | is_word(&token.kind, b"class")),
        Stand::Labelled => !is_word(&token.kind, b"class"),
    }
}

/// Whether the token begins a statement that begins with no expression and no declaration.
fn begins_other(token: &Token, flags: Flags) -> bool
    ensures { result ≡ begins_other flags (read token.now) }
{
    is_mark(&token.kind, Punctuator::LeftBrace)
        | is_mark(&token.kind, Punctuator::Semicolon)
        | is_statement_word(&token.kind)
        | (flags.has_return & is_word(&token.kind, b"return"))
}

fn next_begins_other(cursor: &Cursor, flags: Flags) -> bool
    ensures { result ≡ next_is (begins_other flags) cursor.now.tokens }
{
    match cursor.rest().first() {
        Some(token) => begins_other(token, flags),
        None => false,
    }
}

fn next_may_declare(cursor: &Cursor, stand: Stand) -> bool
    ensures { result ≡ next_is (may_declare stand) cursor.now.tokens }
{
    match cursor.rest().first() {
        Some(token) => may_declare(token, stand),
        None => false,
    }
}

/// Whether the next token begins what may stand there.
#[tactic(auto, using(crate::proofs::StatementBegins::begins_next))]
fn next_begins_statement(cursor: &Cursor, flags: Flags, stand: Stand) -> bool
    ensures { result ≡ next_is (begins_statement flags stand) cursor.now.tokens }
{
    next_begins_other(cursor, flags)
        | (cursor.next_begins_expression(flags) & next_may_declare(cursor, stand))
}

/// The fault of a statement, which would be one construct too many.
#[tactic(auto, using(es6_cursor::proofs::Rules::groups), unfolding(es6_reading::specs::Statements::statement_at_limit, es6_reading::specs::Parser::no_expression))]
pub fn statement_at_limit<G: MakesSimpleStatements>(
    cursor: &Cursor,
    flags: Flags,
    stand: Stand,
) -> Result<G::Statement, Halt>
    ensures { ReadsAs G.seen_statement (statement_at_limit flags stand cursor.now) result cursor.now }
{
    if next_begins_statement(cursor, flags, stand) {
        return Err(Halt::Stopped(Stop::Depth));
    }
    if cursor.next_is_word(b"with") {
        return Err(Halt::Stopped(Stop::Outside(5)));
    }
    Err(Halt::Stopped(cursor.no_expression()))
}
