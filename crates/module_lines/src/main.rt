//! Reads texts, each behind a line with its length in bytes and the word that says what it is read as, and prints for each the
//! nodes of its tree, one a line with its begin and end in bytes, or what stops the reader. Each answer ends with a line `end`.
//!
//! A `module` is followed by the findings that come first, an `expression` or a `statement` by the number of tokens that it takes.
//! A `pattern` and `parameters` are an expression that is refined. With the argument `time` one line stands for the nodes of a
//! module, so that only reading and checking takes time.
#![tactic(auto)]

mod fault;
mod goal;
mod parts;

use early_errors::first_early;
use early_findings::Finding;
use es6_ast::Module;
use es6_lexer::{Token, lex6};
use es6_module::parse_module;
use fault::{show_fault, show_place};
use goal::Goal;
use outside_constructs::first_outside;
use std::alloc::{AllocError, Global};
use std::env;
use std::io::{self, BufReader, BufWriter, Read, Write};
use std::ops::Deref;
use tree_lines::{Lines, kept};

/// The most bytes of a module.
const LIMIT: usize = 4_194_304;

/// What the first text is read as, the text, and what follows it.
fn first_text(input: &[u8]) -> Option<(Goal, &[u8], &[u8])> {
    let end = input.iter().position(|byte| *byte == b'\n')?;
    let (line, behind) = input.split_at(end);
    let (length, word) = str::from_utf8(line).ok()?.split_once(' ')?;
    let length = length.parse::<usize>().ok()?;
    let goal = Goal::of_word(word)?;
    let (_, rest) = behind.split_first()?;
    if length > rest.len() {
        return None;
    }
    let (text, rest) = rest.split_at(length);
    Some((goal, text, rest))
}

fn show_finding(lines: &mut Lines, table: &str, finding: Option<Finding>) {
    match finding {
        None => (),
        Some(Finding { rule, at }) => {
            lines.add(table.as_bytes());
            lines.number(rule);
            show_place(lines, "", at);
        }
    }
}

/// The number of the module's items, or each node of it.
fn show_tree(lines: &mut Lines, module: &Module, is_timed: bool) {
    if is_timed {
        lines.add(b"Module with ");
        lines.number(module.items.len());
        lines.add(b" items\n");
    } else {
        lines.module(module);
    }
}

/// A module and its findings.
fn show_read(
    lines: &mut Lines,
    alloc: Global,
    module: &Module,
    is_timed: bool,
) -> Result<(), AllocError> {
    show_tree(lines, module, is_timed);
    show_finding(lines, "E", first_early(alloc, module)?);
    show_finding(lines, "U", first_outside(alloc, module)?);
    Ok(())
}

fn show_module(
    lines: &mut Lines,
    alloc: Global,
    tokens: &[Token],
    is_timed: bool,
) -> Result<(), AllocError> {
    match parse_module(alloc, tokens) {
        Ok(module) => show_read(lines, alloc, kept(module).deref(), is_timed),
        Err(fault) => {
            show_fault(lines, fault);
            Ok(())
        }
    }
}

/// What the tokens are read as, or what stops the reader.
fn show_tokens(
    lines: &mut Lines,
    alloc: Global,
    goal: Goal,
    tokens: &[Token],
    is_timed: bool,
) -> Result<(), AllocError> {
    match goal {
        Goal::Module => show_module(lines, alloc, tokens, is_timed)?,
        Goal::Expression => parts::show_expression(lines, alloc, tokens),
        Goal::Statement => parts::show_statement(lines, alloc, tokens),
        Goal::Pattern => parts::show_pattern(lines, alloc, tokens),
        Goal::Parameters => parts::show_parameters(lines, alloc, tokens),
    }
    Ok(())
}

/// The lines of the answer to a text.
fn answer(alloc: Global, goal: Goal, text: &[u8], is_timed: bool) -> Result<Vec<u8>, AllocError> {
    let mut lines = Lines::new(alloc);
    if text.len() > LIMIT || str::from_utf8(text).is_err() {
        lines.add(b"OutOfMemory\n");
    } else {
        let tokens = lex6(alloc, text)?;
        show_tokens(&mut lines, alloc, goal, tokens.as_slice(), is_timed)?;
    }
    lines.add(b"end\n");
    lines.into_bytes()
}

fn main(rt: HostRuntime) -> io::Result<()> {
    let is_timed = env::args(&rt)?.nth(1).is_some();
    let mut text = Vec::new(rt.alloc());
    BufReader::new(rt.alloc(), rt.reader())?.read_to_end(&mut text)?;
    let mut out = BufWriter::new(rt.alloc(), io::writer(&rt))?;
    let mut input = text.as_slice();
    for _ in 0..u64::MAX {
        let Some((goal, first, rest)) = first_text(input) else {
            break;
        };
        out.write_all(answer(rt.alloc(), goal, first, is_timed)?.as_slice())?;
        input = rest;
    }
    out.flush()
}
