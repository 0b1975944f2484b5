//! Laws of emission. Each is the contract of a function that does nothing.
#![tactic(auto)]

ghost use Rattle.emission_laws.specs.Laws.{EmittedArePrintable};

/// The script of a lawful core whose texts, keys, cases and cells can be written may be printed, if its helpers may.
pub fn emitted_scripts_may_be_printed()
    ensures { EmittedArePrintable }
{}
