//! Which scripts of ECMAScript 5.1 may be printed, as a test that is computed.
//!
//! `specs/Printable.antt` has the test, a fold over the tree. Its laws are the contracts of functions that do nothing: by them a
//! script that passes meets the condition of `es5_printer::print5`, and no other script does.
#![tactic(auto)]

ghost use Rattle.std.specs.Prelude.{◌≡◌, IfOk};
ghost use Rattle.es5_printable.specs.Laws.{PrintableAreTrees, TreesArePrintable};
ghost use Rattle.es5_printable.specs.Printable.{is_printable};

mod expression_forms;
mod names;
mod statement_forms;

use es5_ast::Script;
use es5_early::first_pair;
use statement_forms::{begins_strict, statements_fit};
use std::alloc::{AllocError, Global};

/// Whether the script may be printed: the directive of strict code comes first, each statement is one of the grammar
/// (ECMA-262, 5.1 edition, 11 to 14), and it has no early error nor what the profile leaves out (`docs/ES5_PROFILE.md`). The
/// recursion is as deep as the tree. The only error is want of memory.
pub fn is_printable(alloc: Global, script: &Script) -> Result<bool, AllocError>
    ensures { IfOk result (λ answer. answer ≡ is_printable script.now) }
{
    let statements = script.statements.as_slice();
    if !begins_strict(statements) {
        return Ok(false);
    }
    if !statements_fit(statements, false, true) {
        return Ok(false);
    }
    Ok(first_pair(alloc, script)?.is_none())
}

/// A script that is printable is, spans and sites aside, the tree of some text.
pub fn printable_scripts_are_trees()
    ensures { PrintableAreTrees }
{}

/// The tree of a text is printable, whatever its spans and sites.
pub fn trees_are_printable()
    ensures { TreesArePrintable }
{}
