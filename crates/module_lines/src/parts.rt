//! An expression or a statement by itself, and what an expression is refined to.

use crate::fault::{show_fault, show_place};
use es6_ast::Expression;
use es6_expr::{
    Context, ParseFault, RefineFault, parse_expression, parse_statement, refine_parameters,
    refine_pattern,
};
use es6_lexer::Token;
use std::alloc::Global;
use std::ops::Deref;
use tree_lines::{Lines, kept};

/// Outside functions and generators, where nothing is open yet.
const OUTSIDE: Context = Context {
    no_in: false,
    in_generator: false,
    in_function: false,
    depth: 0,
};

fn expression_of(alloc: Global, tokens: &[Token]) -> Result<(Expression, usize), ParseFault> {
    if tokens.is_empty() {
        return Err(ParseFault::OutOfMemory);
    }
    parse_expression(alloc, tokens, 0, OUTSIDE)
}

/// How many tokens are taken.
fn show_taken(lines: &mut Lines, taken: usize) {
    lines.add(b"taken ");
    lines.number(taken);
    lines.add(b"\n");
}

/// The expression that the tokens begin with, and how many it takes.
pub fn show_expression(lines: &mut Lines, alloc: Global, tokens: &[Token]) {
    match expression_of(alloc, tokens) {
        Ok((expression, taken)) => {
            lines.expression(kept(expression).deref());
            show_taken(lines, taken);
        }
        Err(fault) => show_fault(lines, fault),
    }
}

/// The statement that the tokens begin with, and how many it takes.
pub fn show_statement(lines: &mut Lines, alloc: Global, tokens: &[Token]) {
    if tokens.is_empty() {
        return show_fault(lines, ParseFault::OutOfMemory);
    }
    match parse_statement(alloc, tokens, 0, OUTSIDE) {
        Ok((statement, taken)) => {
            lines.statement(kept(statement).deref());
            show_taken(lines, taken);
        }
        Err(fault) => show_fault(lines, fault),
    }
}

/// Why an expression is not refined, and the expression that is handed back.
fn show_refusal(lines: &mut Lines, fault: RefineFault) {
    match fault {
        RefineFault::NotAPattern { at, expression } => {
            show_place(lines, "NotAPattern", at);
            lines.expression(kept(expression).deref());
        }
        RefineFault::OutOfMemory => lines.add(b"OutOfMemory\n"),
    }
}

/// The pattern that the expression is refined to.
pub fn show_pattern(lines: &mut Lines, alloc: Global, tokens: &[Token]) {
    match expression_of(alloc, tokens) {
        Ok((expression, _)) => match refine_pattern(alloc, expression) {
            Ok(pattern) => lines.pattern(kept(pattern).deref()),
            Err(fault) => show_refusal(lines, fault),
        },
        Err(fault) => show_fault(lines, fault),
    }
}

/// The parameters that the expression is refined to.
pub fn show_parameters(lines: &mut Lines, alloc: Global, tokens: &[Token]) {
    match expression_of(alloc, tokens) {
        Ok((expression, _)) => match refine_parameters(alloc, expression) {
            Ok(parameters) => lines.parameters(kept(parameters).deref().as_slice()),
            Err(fault) => show_refusal(lines, fault),
        },
        Err(fault) => show_fault(lines, fault),
    }
}
