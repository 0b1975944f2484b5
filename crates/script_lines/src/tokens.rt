//! The tokens of a text, in a line.

ghost use Rattle.std.specs.Prelude.{◌≤◌, length};

use es_text::chars_of;
use es5_tokens::{Token, TokenKind, tokens5};
use std::alloc::{AllocError, Global};

/// The tokens, and where and why they end.
pub fn tokens_shown(alloc: Global, text: &[u8]) -> Result<String, AllocError>
    requires { length text.now ≤ 67108864 }
{
    let Ok(text) = chars_of(alloc, text) else {
        return String::from_str(alloc, "no UTF-8");
    };
    let tokens = tokens5(alloc, &text)?;
    let mut shown = String::new(alloc);
    for token in &tokens.list {
        show_token(&mut shown, token)?;
    }
    let end = tokens.end;
    match tokens.fault {
        None => write!(shown, "{end}")?,
        Some(fault) => write!(shown, "{end}={fault:?}")?,
    }
    Ok(shown)
}

/// A mark where a line terminator stands before, the offsets, and what the token is.
fn show_token(shown: &mut String, token: &Token) -> Result<(), AllocError> {
    if token.after_line {
        shown.push_str("^")?;
    }
    let begin = token.begin;
    let end = token.end;
    write!(shown, "{begin}-{end}=")?;
    show_kind(shown, &token.kind)?;
    shown.push_str(" ")
}

fn show_kind(shown: &mut String, kind: &TokenKind) -> Result<(), AllocError> {
    match kind {
        TokenKind::Word(name) => shown.push_str(str::from_utf8(name.bytes()).unwrap_or("?")),
        TokenKind::Integer(value) => write!(shown, "{value}"),
        TokenKind::Text(units) => show_units(shown, units.units()),
        TokenKind::Punctuator(punctuator) => write!(shown, "{punctuator:?}"),
    }
}

fn show_units(shown: &mut String, units: &[u16]) -> Result<(), AllocError> {
    shown.push_str("text:")?;
    for unit in units {
        write!(shown, "{unit:x},")?;
    }
    Ok(())
}
