//! The script of a text.

ghost use Rattle.std.specs.Prelude.{◌≡◌, ◌≤◌, [], map, length, IfOk, IfErr, Option};
ghost use Rattle.es5_ast.specs.Grammar.{across};
ghost use Rattle.es5_cursor.specs.Reads.{stop5};
ghost use Rattle.es5_reading.specs.Programs.{script};
ghost use Rattle.es5_text.specs.Accepted.{AcceptsAtBreaks};
ghost use Rattle.es5_text.specs.Answer.{Answers, answer_of, at_end, of_stop, of_token, stopped};
ghost use Rattle.es5_text.specs.Faults.{IsFault};
ghost use Rattle.es5_text.specs.Read.{IsRead};
ghost use Rattle.es5_text.specs.Parsed.{IsParsed};
ghost use Rattle.es5_cursor.specs.Readers.{turns};
ghost use Rattle.es5_tokens.specs.Tokens.{token5};

use crate::fault::Fault5;
use crate::program::script;
use es_text::{Span, chars_of};
use es5_ast::{Script, Stat5};
use es5_cursor::{Cursor, Halt, Stop};
use es5_early::first_pair;
use es5_tokens::{Token, TokenFault, Tokens, tokens5};
use sqlite_items::Items;
use std::alloc::Global;

/// The script that these bytes are, of which there are at most 67,108,864 (`docs/ES5_PROFILE.md`).
///
/// A fault is the first of the text: faults of the tokens and of the grammar, and what the tables leave out, come in the order
/// of the tokens, and then the least pair of tables F and V. The recursion is as deep as 2,048 constructs.
pub fn parse5(alloc: Global, bytes: &[u8]) -> Result<Script, Fault5>
    requires { length bytes.now ≤ 67108864 }
    // The bytes spell the script.
    ensures parsed { IfOk result (λ script. IsParsed bytes.now script) }
    // A script whose semicolons are missing only at breaks is answered, if not too many constructs are open.
    ensures accepted { AcceptsAtBreaks bytes.now result }
    // A fault says where the text is none, and that no such script goes on there.
    ensures fault { IfErr result (λ fault. IsFault bytes.now fault) }
    // What is answered is what the laws of `es5_reading` speak of.
    ensures read { IsRead bytes.now result }
{
    read_text(alloc, bytes)
}

/// The same, as the model reads the text's tokens.
fn read_text(alloc: Global, bytes: &[u8]) -> Result<Script, Fault5>
    requires { length bytes.now ≤ 67108864 }
    ensures { IsRead bytes.now result }
{
    let text = chars_of(alloc, bytes)?;
    let tokens = tokens5(alloc, text.as_slice())?;
    let statements = statements_of(alloc, &tokens)?;
    let script = Script {
        span: whole_span(tokens.list.as_slice()),
        statements,
    };
    match first_pair(alloc, &script)? {
        Some(pair) => Err(Fault5::from(pair)),
        None => Ok(script),
    }
}

/// From the first token to the last.
fn whole_span(tokens: &[Token]) -> Span
    ensures { result ≡ across (map token5 tokens.now) [] }
{
    match (tokens.first(), tokens.last()) {
        (Some(first), Some(last)) => Span {
            begin: first.begin,
            end: last.end,
        },
        _ => Span { begin: 0, end: 0 },
    }
}

/// The statements of all the tokens of a text, if no fault of theirs is reached.
fn statements_of(alloc: Global, tokens: &Tokens) -> Result<Items<Stat5>, Fault5>
    ensures { Answers result (answer_of (script turns (map token5 tokens.now.list.items)) tokens.now.end tokens.now.fault) }
{
    let mut cursor = Cursor::new(alloc, tokens.list.as_slice());
    match script(&mut cursor) {
        Ok(statements) => match tokens.fault {
            None => Ok(statements),
            Some(fault) => Err(of_token(fault, tokens.end)),
        },
        Err(Halt::Stopped(stop)) => Err(stopped(stop, cursor.rest(), tokens.end, tokens.fault)),
        Err(Halt::OutOfMemory) => Err(Fault5::OutOfMemory),
    }
}

/// The fault of the tokens that are left, or of what ends them.
fn stopped(stop: Stop, rest: &[Token], end: u32, fault: Option<TokenFault>) -> Fault5
    ensures { result ≡ stopped (stop5 stop) (map token5 rest.now) end fault }
{
    match rest.first() {
        Some(token) => of_stop(stop, token.begin),
        None => at_end(stop, end, fault),
    }
}

/// A missing directive goes before a number that is outside the profile.
fn at_end(stop: Stop, end: u32, fault: Option<TokenFault>) -> Fault5
    ensures { result ≡ at_end (stop5 stop) end fault }
{
    match (fault, stop) {
        (None, _) | (Some(TokenFault::Number), Stop::Outside(1)) => of_stop(stop, end),
        (Some(fault), _) => of_token(fault, end),
    }
}

fn of_stop(stop: Stop, at: u32) -> Fault5
    ensures { result ≡ of_stop (stop5 stop) at }
{
    match stop {
        Stop::Syntax => Fault5::Syntax5 { at },
        Stop::Depth => Fault5::Depth5 { at },
        Stop::Outside(rule) => Fault5::Outside5 { rule, at },
        // No text of the allowed length has so many tokens.
        Stop::Endless => Fault5::OutOfMemory,
    }
}

fn of_token(fault: TokenFault, at: u32) -> Fault5
    ensures { result ≡ of_token fault at }
{
    match fault {
        TokenFault::Lexical => Fault5::Lexical5 { at },
        TokenFault::Number => Fault5::Outside5 { rule: 5, at },
    }
}
