//! Reads modules, each behind a line with its length in bytes, and prints a line for each reference by name in it, in text order: where
//! it begins and where its binding is declared first, or `global`, in bytes; and then `captured` where it stands in a function inside
//! the binding's scope, `looped` where that scope stands in a loop of its function, `certain` where the binding has its value, and
//! `uncertain` where it counts as a reference that may find none. Each answer ends with a line `end`; a text that is no module has
//! a line `fault`.
#![tactic(auto)]

use es6_ast::Module;
use es6_lexer::{Token, lex6};
use es6_module::parse_module;
use scope_rules::scope_tables::{Binding, Reference, resolve_marks};
use scope_walk::module_marks;
use std::alloc::{AllocError, Global};
use std::io::{self, BufReader, BufWriter, Read, Write};
use std::ops::Deref;
use tree_lines::{Lines, kept};

/// The most bytes of a module.
const LIMIT: usize = 4_194_304;

/// The first text, and what follows it.
fn first_text(input: &[u8]) -> Option<(&[u8], &[u8])> {
    let end = input.iter().position(|byte| *byte == b'\n')?;
    let (line, behind) = input.split_at(end);
    let length = str::from_utf8(line).ok()?.parse::<usize>().ok()?;
    let (_, rest) = behind.split_first()?;
    if length > rest.len() {
        return None;
    }
    Some(rest.split_at(length))
}

fn show_word(lines: &mut Lines, is_so: bool, word: &str) {
    if is_so {
        lines.add(b" ");
        lines.add(word.as_bytes());
    }
}

fn show_binding(lines: &mut Lines, binding: Option<&Binding>) {
    match binding {
        None => lines.add(b" global"),
        Some(binding) => {
            lines.add(b" ");
            lines.number(binding.at);
            show_word(lines, binding.in_loop, "looped");
        }
    }
}

fn show_reference(lines: &mut Lines, bindings: &[Binding], reference: &Reference) {
    lines.number(reference.at);
    let binding = match reference.binding {
        None => None,
        Some(number) => bindings.get(number),
    };
    show_binding(lines, binding);
    show_word(lines, reference.is_captured, "captured");
    show_word(lines, reference.is_certain, "certain");
    show_word(lines, reference.is_uncertain, "uncertain");
    lines.add(b"\n");
}

/// The lines of a module.
fn show_module(lines: &mut Lines, alloc: Global, module: &Module) -> Result<(), AllocError> {
    let marks = module_marks(alloc, module)?;
    let resolved = resolve_marks(alloc, marks.as_slice())?;
    for reference in &resolved.references {
        show_reference(lines, resolved.names.bindings(), reference);
    }
    Ok(())
}

fn show_tokens(lines: &mut Lines, alloc: Global, tokens: &[Token]) -> Result<(), AllocError> {
    match parse_module(alloc, tokens) {
        Ok(module) => show_module(lines, alloc, kept(module).deref()),
        Err(_) => {
            lines.add(b"fault\n");
            Ok(())
        }
    }
}

/// The lines of the answer to a text.
fn answer(alloc: Global, text: &[u8]) -> Result<Vec<u8>, AllocError> {
    let mut lines = Lines::new(alloc);
    if text.len() > LIMIT || str::from_utf8(text).is_err() {
        lines.add(b"fault\n");
    } else {
        let tokens = lex6(alloc, text)?;
        show_tokens(&mut lines, alloc, tokens.as_slice())?;
    }
    lines.add(b"end\n");
    lines.into_bytes()
}

fn main(rt: HostRuntime) -> io::Result<()> {
    let mut text = Vec::new(rt.alloc());
    BufReader::new(rt.alloc(), rt.reader())?.read_to_end(&mut text)?;
    let mut out = BufWriter::new(rt.alloc(), io::writer(&rt))?;
    let mut input = text.as_slice();
    for _ in 0..u64::MAX {
        let Some((first, rest)) = first_text(input) else {
            break;
        };
        out.write_all(answer(rt.alloc(), first)?.as_slice())?;
        input = rest;
    }
    out.flush()
}
