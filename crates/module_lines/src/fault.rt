//! What stops the reader.

use es6_expr::ParseFault;
use tree_lines::Lines;

/// The line of a fault.
pub fn show_fault(lines: &mut Lines, fault: ParseFault) {
    match fault {
        ParseFault::Syntax { at } => show_place(lines, "Syntax", at),
        ParseFault::Lexical { at, .. } => show_place(lines, "Lexical", at),
        ParseFault::Outside { rule, at } => {
            lines.add(b"Outside ");
            lines.number(rule);
            show_place(lines, "", at);
        }
        ParseFault::Depth { at } => show_place(lines, "Depth", at),
        ParseFault::OutOfMemory => lines.add(b"OutOfMemory\n"),
    }
}

/// What was found, and its place.
pub fn show_place(lines: &mut Lines, found: &str, at: u32) {
    lines.add(found.as_bytes());
    lines.add(b" ");
    lines.number(at);
    lines.add(b"\n");
}
