//! Laws of whole scripts. Each is the contract of a function that does nothing.
#![tactic(auto)]

ghost use Rattle.es5_script_laws.specs.Laws.{AreAlike, AreUnique};

/// No bytes spell two scripts.
pub fn bytes_spell_one_script()
    ensures exact { AreUnique }
    // The trees are the same but for spans and sites, where these may be any.
    ensures aside { AreAlike }
{}
