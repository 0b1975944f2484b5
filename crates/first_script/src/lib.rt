//! The script of a module of the first forms, which does what the module means. It stands in until whole modules are
//! lowered.
#![tactic(auto)]

ghost use Rattle.std.specs.Prelude.{IfOk};
ghost use Rattle.first_forms.specs.WellFormed.{IsWellFormed};
ghost use Rattle.first_script.specs.Script.{IsScriptOf};

mod print;
mod suffix;

use first_trees::Module;
use shared_text::Name;
use std::alloc::{AllocError, Global};

/// The bytes of a strict ES5 script that makes the module's host calls and ends as it does, for every list of answers
/// and as long as the module stays in the profile. Its host functions are globals of these names.
pub fn script_of(alloc: Global, source: &Module, hosts: &[Name]) -> Result<Vec<u8>, AllocError>
    requires { IsWellFormed hosts.now source.now }
    ensures { IfOk result (λ script. IsScriptOf hosts.now source.now script.items) }
{
    let suffix = suffix::suffix_of(alloc, hosts)?;
    let script = print::print_script(alloc, source, suffix.as_slice())?;
    Ok(script)
}
