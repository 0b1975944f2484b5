//! What a machine is, what is seen of its run, and when one machine does what another does.
//!
//! The definitions and the theorems stand in `specs/` and `proofs/`. The functions here carry the laws as their
//! contracts: they do nothing when they run.
#![tactic(auto)]

ghost use Rattle.runs.specs.Laws.{IsReflexive, IsMonotone, IsTransitive, SimulationSuffices, MapSuffices, SameIsClauses, IsLasting, IsSeenWhereItStands, MoreAnswersWait};

/// Every machine does what it does itself.
pub fn same_is_reflexive<E, A, O, L>()
    ensures { IsReflexive E A O L }
{}

/// What does the same by one relation of events does so by each that holds of more pairs.
pub fn same_is_monotone<V, W, E, F, A, O, L, M>()
    ensures { IsMonotone V W E F A O L M }
{}

/// Doing the same composes, whatever the relations of events and the exits are. The relation that comes out is given as
/// those that go in are, so a chain of any length composes.
pub fn same_is_transitive<U, V, W, E, F, G, A, O, L, M, N>()
    ensures { IsTransitive U V W E F G A O L M N }
{}

/// A simulation of single steps, in which the rank of the pair of states falls wherever the target stands still, makes the
/// target do what the source does.
pub fn a_simulation_suffices<S, T, V, W, E, F, A, O, L, M>()
    ensures { SimulationSuffices S T V W E F A O L M }
{}

/// A target whose steps are the source's, with states and events mapped, does what the source does.
pub fn a_map_suffices<S, T, E, F, A, O, L, M>()
    ensures { MapSuffices S T E F A O L M }
{}

/// Doing the same is what the three clauses say: what the source does is kept, the target does no more, and it ends as the
/// source does.
pub fn same_is_three_clauses<S, T, W, E, F, A, O, L, M>()
    ensures { SameIsClauses S T W E F A O L M }
{}

/// A run that waits, is over or has left its profile stays as it is.
pub fn a_run_lasts<S, E, A, O, L>()
    ensures { IsLasting S E A O L }
{}

/// What is seen of a run is what is seen of the state that it has come to, where n + 1 steps are n steps and one more.
pub fn a_run_is_seen_where_it_stands<S, E, A, O, L>()
    ensures { IsSeenWhereItStands S E A O L }
{}

/// More answers change nothing until those that are left are taken.
pub fn more_answers_wait<S, E, A, O, L>()
    ensures { MoreAnswersWait S E A O L }
{}
