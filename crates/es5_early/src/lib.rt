//! Which early error of a script comes first, or which reference that the profile leaves out (docs/ES5_PROFILE.md, tables F
//! and V): what makes a text whose tokens are a program of strict code none of the profile all the same.
#![tactic(auto)]

ghost use Rattle.std.specs.Prelude.{◌≡◌, ◌↔◌, [], None, IfOk, IfSome};
ghost use Rattle.std.specs.Option.{option_map};
ghost use Rattle.es5_ast.specs.Early.{IsFirst, least_pair, script_pairs};
ghost use Rattle.es5_early.specs.Pairs.{pair_of};

mod expressions;
mod finder;
mod labels;
mod names;
mod pair;
mod properties;
mod statements;
mod targets;

use es5_ast::Script;
use finder::Finder;
use labels::{Labels, Place};
pub use pair::{Pair, Rule};
use std::alloc::{AllocError, Global};

/// The pair that is reported of a script, by place, then an early error before what is outside the profile, then by number.
/// Without one, no early error and nothing that the profile leaves out stands in the script. The recursion is as deep as the
/// tree. The only error is want of memory.
pub fn first_pair(alloc: Global, script: &Script) -> Result<Option<Pair>, AllocError>
    ensures least { IfOk result (λ first. option_map pair_of first ≡ least_pair (script_pairs script.now.statements)) }
    ensures none { IfOk result (λ first. (first ≡ None) ↔ (script_pairs script.now.statements ≡ [])) }
    ensures first { IfOk result (λ first. IfSome first (λ pair. IsFirst (pair_of pair) (script_pairs script.now.statements))) }
{
    let mut finder = Finder::new(alloc);
    let mut labels = Labels::new(alloc);
    finder.statements(
        script.statements.as_slice(),
        &mut labels,
        Place::of_script(),
    )?;
    Ok(finder.least())
}
