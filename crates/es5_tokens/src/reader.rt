//! The tokens of a text, one after another.

ghost use Rattle.std.specs.Prelude.{◌≡◌, ◌≤◌, ◌<◌, ◌^◌, false, IfOk};
ghost use Rattle.es5_ast.specs.Lexical.{width};
ghost use Rattle.es5_tokens.specs.Lexes.{LexesFrom, token_at};
ghost use Rattle.es5_tokens.specs.Tokens.{Reads};

use crate::element::element;
use crate::shape::Element;
use crate::token::{Token, TokenKind, Tokens};
use std::alloc::{AllocError, Global};

/// The tokens of the characters of a text of at most 67,108,864 bytes, up to its end or its first fault.
pub fn tokens5(alloc: Global, text: &[char]) -> Result<Tokens, AllocError>
    requires limit { width text.now ≤ 67108864 }
    ensures tokens { IfOk result (λ r. Reads text.now r.list.items r.end r.fault) }
    ensures exact { IfOk result (λ r. LexesFrom false 0 text.now r.list.items r.end r.fault) }
{
    let mut list = Vec::new(alloc);
    let mut after_line = false;
    let mut offset: u32 = 0;
    let mut rest = text;
    loop {
        match element(alloc, rest)? {
            Element::Finished => {
                return Ok(Tokens {
                    list,
                    end: offset,
                    fault: None,
                });
            }
            Element::Stop { fault, at } => {
                return Ok(Tokens {
                    list,
                    end: offset + width(&rest[..at]),
                    fault: Some(fault),
                });
            }
            Element::Skip { length, line } => {
                let (front, after) = rest.split_at(length);
                offset += width(front);
                rest = after;
                after_line = after_line | line;
            }
            Element::Take { kind, length } => {
                let (front, after) = rest.split_at(length);
                let end = offset + width(front);
                list.push(token(kind, offset, end, after_line))?;
                offset = end;
                rest = after;
                after_line = false;
            }
        }
    }
}

fn token(kind: TokenKind, begin: u32, end: u32, after_line: bool) -> Token
    ensures { result ≡ token_at kind begin end after_line }
{
    Token {
        kind,
        begin,
        end,
        after_line,
    }
}

/// How many bytes characters have.
fn width(text: &[char]) -> u32
    requires { width text.now < 2 ^ 32 }
    ensures { result ≡ width text.now }
{
    let mut total = 0;
    for c in text {
        total += c.len_utf8() as u32;
    }
    total
}
