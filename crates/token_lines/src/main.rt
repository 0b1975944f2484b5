//! Prints the tokens of a text, one a line: the kind, the bytes that it spans, whether a line
//! terminator stands before it, and its value. The text is the file that is named, or the input.
#![tactic(auto)]

ghost use Rattle.std.specs.Prelude.{◌≤◌, length};

use anyhow::{Result, ensure};
use es6_lexer::{NumberToken, Token, TokenKind, lex6};
use std::io::{BufWriter, Write};
use std::{env, fs, io};

const LIMIT: usize = 4_194_304;

/// Writes units as hexadecimal numbers.
fn write_units<W: Write>(out: &mut W, units: &[u16]) -> io::Result<()> {
    for unit in units {
        write!(out, " {unit:04x}")?;
    }
    Ok(())
}

fn write_number<W: Write>(out: &mut W, number: &NumberToken) -> io::Result<()> {
    match number {
        NumberToken::Whole(value) => write!(out, "Number {value}"),
        NumberToken::TooLarge => write!(out, "Number large"),
        NumberToken::Marked => write!(out, "Number marked"),
    }
}

fn write_kind<W: Write>(out: &mut W, kind: &TokenKind) -> io::Result<()> {
    match kind {
        TokenKind::Word(name) => {
            write!(out, "Word ")?;
            out.write_all(name.bytes())
        }
        TokenKind::Punctuator(punctuator) => write!(out, "Punctuator {punctuator:?}"),
        TokenKind::Number(number) => write_number(out, number),
        TokenKind::Text(units) => {
            write!(out, "Text")?;
            write_units(out, units.units())
        }
        TokenKind::Template {
            cooked,
            raw,
            first,
            last,
        } => {
            write!(out, "Template {first} {last}")?;
            write_units(out, cooked.units())?;
            write!(out, " /")?;
            write_units(out, raw.units())
        }
        TokenKind::Fault(kind) => write!(out, "Fault {kind:?}"),
        TokenKind::End => write!(out, "End"),
    }
}

fn write_token<W: Write>(out: &mut W, token: &Token) -> io::Result<()> {
    let begin = token.span.begin;
    let end = token.span.end;
    let newline = token.newline;
    write!(out, "{begin} {end} {newline} ")?;
    write_kind(out, &token.kind)?;
    writeln!(out, "")
}

fn main(rt: HostRuntime) -> Result<()> {
    let text = match env::args(&rt)?.nth(1) {
        Some(path) => fs::read_to_string(&rt, path)?,
        None => io::read_to_string(rt.alloc(), rt.reader())?,
    };
    let bytes = text.as_str().as_bytes();
    ensure!(bytes.len() <= LIMIT, "too long");
    let tokens = lex6(rt.alloc(), bytes)?;
    let mut out = BufWriter::new(rt.alloc(), io::writer(&rt))?;
    for token in &tokens {
        write_token(&mut out, token)?;
    }
    out.flush()?;
    Ok(())
}
