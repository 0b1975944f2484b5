//! Reads texts, each behind a line with its length in bytes, and prints for each `script N` and the N bytes of the script
//! as the printer gives it, or the fault of the text: its kind, the rule's number where it has one, and the offset.
//! Where the line begins with `tokens`, it prints the text's tokens in place of it: of each a `^` where a line terminator
//! stands before it, its offsets and what it is; then where they end, and why.
//! Line feeds may stand before a text's line.
#![tactic(auto)]

mod tokens;

use crate::tokens::tokens_shown;
use es5_printer::print5;
use es5_text::{Fault5, parse5};
use std::alloc::{AllocError, Global};
use std::io::{self, BufReader, BufWriter, Read, Write};
use std::mem::forget;

/// The most bytes of a script.
const LIMIT: usize = 67_108_864;

/// What is printed of a text.
#[derive(Clone, Copy)]
enum Wanted {
    Script,
    Tokens,
}

/// A text of the input.
#[derive(Clone, Copy)]
struct Row<'a> {
    wanted: Wanted,
    text: &'a [u8],
}

/// The first text, and what follows it.
fn first_row(input: &[u8]) -> Option<(Row, &[u8])> {
    let begin = input.iter().position(|byte| *byte != b'\n')?;
    let (_, input) = input.split_at(begin);
    let end = input.iter().position(|byte| *byte == b'\n')?;
    let (line, behind) = input.split_at(end);
    let (_, rest) = behind.split_first()?;
    let (wanted, length) = wanted_of(str::from_utf8(line).ok()?)?;
    if length > rest.len() {
        return None;
    }
    let (text, rest) = rest.split_at(length);
    Some((Row { wanted, text }, rest))
}

/// What a line asks for, and the text's length.
fn wanted_of(line: &str) -> Option<(Wanted, usize)> {
    let (wanted, digits) = match line.strip_prefix("tokens ") {
        Some(digits) => (Wanted::Tokens, digits),
        None => (Wanted::Script, line),
    };
    Some((wanted, digits.parse::<usize>().ok()?))
}

fn write_fault<W: Write>(out: &mut W, fault: Fault5) -> io::Result<()> {
    match fault {
        Fault5::Lexical5 { at } => writeln!(out, "Lexical5 {at}"),
        Fault5::Syntax5 { at } => writeln!(out, "Syntax5 {at}"),
        Fault5::Early5 { rule, at } => writeln!(out, "Early5 {rule} {at}"),
        Fault5::Outside5 { rule, at } => writeln!(out, "Outside5 {rule} {at}"),
        Fault5::Depth5 { at } => writeln!(out, "Depth5 {at}"),
        Fault5::OutOfMemory => writeln!(out, "OutOfMemory"),
    }
}

/// The printed script, or the fault.
fn printed(alloc: Global, text: &[u8]) -> Result<Result<Vec<u8>, Fault5>, AllocError> {
    if text.len() > LIMIT {
        return Ok(Err(Fault5::OutOfMemory));
    }
    match parse5(alloc, text) {
        Ok(script) => {
            let (bytes, _marks) = print5(alloc, &script)?;
            // To let it go would take a deeper stack than to read it.
            forget(script);
            Ok(Ok(bytes))
        }
        Err(fault) => Ok(Err(fault)),
    }
}

fn write_script<W: Write>(out: &mut W, bytes: &[u8]) -> io::Result<()> {
    writeln!(out, "script {}", bytes.len())?;
    out.write_all(bytes)
}

fn write_tokens<W: Write>(out: &mut W, alloc: Global, text: &[u8]) -> io::Result<()> {
    if text.len() > LIMIT {
        return writeln!(out, "too long");
    }
    let tokens = tokens_shown(alloc, text)?;
    writeln!(out, "{tokens}")
}

/// What the text's line wants.
fn write_answer<W: Write>(out: &mut W, alloc: Global, row: Row) -> io::Result<()> {
    match row.wanted {
        Wanted::Tokens => write_tokens(out, alloc, row.text),
        Wanted::Script => match printed(alloc, row.text)? {
            Ok(bytes) => write_script(out, &bytes),
            Err(fault) => write_fault(out, fault),
        },
    }
}

fn main(rt: HostRuntime) -> io::Result<()> {
    let mut text = Vec::new(rt.alloc());
    BufReader::new(rt.alloc(), rt.reader())?.read_to_end(&mut text)?;
    let mut out = BufWriter::new(rt.alloc(), io::writer(&rt))?;
    let mut input = text.as_slice();
    for _ in 0..u64::MAX {
        let Some((row, rest)) = first_row(input) else {
            break;
        };
        write_answer(&mut out, rt.alloc(), row)?;
        input = rest;
    }
    out.flush()
}
