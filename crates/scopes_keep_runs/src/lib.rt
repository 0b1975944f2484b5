//! That a core does behind the flattening of scopes what it did before, if its code fits and its names may be flattened. The law is the contract of
//! a function that does nothing.
#![tactic(auto)]

ghost use Rattle.scopes_keep_runs.specs.ScopesKept.{RunsAreKept};

/// A lawful core does behind the flattening what it did before: the same events, and the same ending, if its code fits, its names may be flattened,
/// and no function keeps cells, all of which is read from the core alone.
pub fn runs_are_kept()
    ensures { RunsAreKept }
{}
