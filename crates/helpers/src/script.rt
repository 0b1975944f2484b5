//! The helpers of a script.

ghost use Rattle.std.specs.Prelude.{◌≡◌, [], IfErr, IfOk};
ghost use Rattle.core_primitives.specs.Used.{none};
ghost use Rattle.es5_text.specs.Accepted.{AcceptsAtBreaks};
ghost use Rattle.es5_text.specs.Faults.{IsFault};
ghost use Rattle.es5_text.specs.Parsed.{IsParsed};
ghost use Rattle.helpers.specs.Definitions.{AnswersAtBreaks, AreDefinitions};
ghost use Rattle.helpers.specs.Text.{text_bytes};
ghost use Rattle.helpers.specs.Wanted.{kept, wanted};

use crate::definitions::keep;
use crate::text::helper_text;
use crate::wanted::wanted;
use core_primitives::UsedPrimitives;
use es5_ast::{Script, Stat5};
use es5_text::{Fault5, parse5};
use shared_text::Name;
use sqlite_items::Items;
use std::alloc::Global;

/// What the script of a core defines that calls these primitives: the definitions of their helpers and of what these use, in the
/// order of the text; none where it calls none.
///
/// A fault is want of memory, or that of the text, if that were no script.
#[tactic(auto, using(crate::proofs::Made::moved, crate::proofs::Made::answers_moved, crate::proofs::Made::answers_memory, crate::proofs::Made::fault_memory, crate::proofs::Made::none_made))]
pub fn helper_script(alloc: Global, used: &UsedPrimitives) -> Result<Items<Stat5>, Fault5>
    // The bytes of the text spell a script, of which these are the statements that are wanted.
    ensures definitions { IfOk result (λ statements. AreDefinitions (wanted used.now) statements) }
    // A fault says where the text is none.
    ensures fault { IfErr result (λ fault. IsFault text_bytes fault) }
    // If the text is a script whose semicolons are missing only at breaks, they are the answer, unless memory runs out.
    ensures accepted { AnswersAtBreaks (wanted used.now) result }
    // A core without primitives needs none.
    ensures none { used.now ≡ none → IfOk result (λ statements. statements ≡ []) }
{
    let names = wanted(alloc, used)?;
    definitions(alloc, names.as_slice())
}

/// The definitions of these names.
#[tactic(auto, using(crate::proofs::Made::made, crate::proofs::Made::answers_kept, crate::proofs::Made::answers_fault, crate::proofs::Made::fault_told))]
fn definitions(alloc: Global, names: &[Name]) -> Result<Items<Stat5>, Fault5>
    ensures definitions { IfOk result (λ statements. AreDefinitions names.now statements) }
    ensures fault { IfErr result (λ fault. IsFault text_bytes fault) }
    ensures accepted { AnswersAtBreaks names.now result }
{
    match read_text(alloc) {
        Ok(script) => Ok(kept(names, script)),
        Err(fault) => Err(fault),
    }
}

/// What `parse5` reads has at most so many bytes.
const LIMIT: usize = 67_108_864;

/// The script that the text is. That the text is short enough isn't proved: a longer one would be refused as for want of memory.
#[tactic(auto, using(crate::proofs::Made::short_of_memory))]
fn read_text(alloc: Global) -> Result<Script, Fault5>
    ensures parsed { IfOk result (λ script. IsParsed text_bytes script) }
    ensures accepted { AcceptsAtBreaks text_bytes result }
    ensures fault { IfErr result (λ fault. IsFault text_bytes fault) }
{
    let text = helper_text();
    if text.len() > LIMIT {
        return Err(Fault5::OutOfMemory);
    }
    parse5(alloc, text)
}

fn kept(names: &[Name], script: Script) -> Items<Stat5>
    ensures { result ≡ kept names.now script.statements }
{
    let mut statements = script.statements;
    keep(names, &mut statements);
    statements
}
