//! Prints a script of ECMAScript 5.1 as text, so that the text's tree is the script, and no other.
//!
//! Each statement stands on lines of its own. Expressions have the parentheses that their places ask for, and no others.
#![tactic(auto)]

ghost use Rattle.std.specs.Prelude.{◌≡◌, IfOk};
ghost use Rattle.es5_ast.specs.Script.{IsTree};
ghost use Rattle.es5_printer.specs.Layout.{text_of};
ghost use Rattle.es5_printer.specs.Printed.{IsPrinted};

mod mark;
mod operators;
mod print;
mod shape;
mod sheet;

use es5_ast::Script;
pub use mark::Mark;
use sheet::Sheet;
use std::alloc::{AllocError, Global};

/// The text of a script, whatever its tree is, and a mark for each call that carries a site, in order of place: the line and the
/// column at which the call's first token stands, and the site.
///
/// Err comes only where memory is wanting.
pub fn write5(alloc: Global, script: &Script) -> Result<(Vec<u8>, Vec<Mark>), AllocError>
    // Pieces of the tree, laid out.
    ensures bytes { IfOk result (λ out. out.0.items ≡ (text_of script.now.statements).bytes) }
    ensures marks { IfOk result (λ out. out.1.items ≡ (text_of script.now.statements).marks) }
{
    let mut out = Sheet::new(alloc);
    print::print_stats(&mut out, script.statements.as_slice())?;
    let parts = out.into_parts();
    Ok(parts)
}

/// The text of a script that is, spans and sites aside, the tree of some text, and a mark for each call that carries a
/// site, in order of place: the line and the column at which the call's first token stands, and the site.
///
/// The text is ASCII, its lines end with LF, and no mark's column is above 100: a longer line is broken before the call.
/// Err comes only where memory is wanting.
pub fn print5(alloc: Global, script: &Script) -> Result<(Vec<u8>, Vec<Mark>), AllocError>
    requires { IsTree script.now }
    ensures { IfOk result (λ out. IsPrinted script.now out.0.items out.1.items) }
{
    write5(alloc, script)
}
