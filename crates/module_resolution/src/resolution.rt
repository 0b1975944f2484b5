//! The law.

ghost use Rattle.std.specs.Prelude.{List, ℕ};
ghost use Rattle.es6_ast.specs.declared.graph.Graph.{Graph};
ghost use Rattle.es6_ast.specs.declared.graph.LoadedModule.{LoadedModule};
ghost use Rattle.es6_static_semantics.specs.Endings.{Elsewhere};
ghost use Rattle.module_endings.specs.declared.answers.Outcome.{Outcome};
ghost use Rattle.module_endings.specs.declared.summary.Summary.{Summary};
ghost use Rattle.module_endings.specs.Ends.{IsOutcome};
ghost use Rattle.module_resolution.specs.Summaries.{AreLegal, AreSummaries, IsResolution, elsewhere};

/// Where no module has an early error, what is answered for a name over the summaries is so in the graph.
pub fn outcomes_are_resolutions()
    ensures { (g : Graph) (hosts : List (List ℕ)) (summaries : List Summary) (m : LoadedModule) (other : Elsewhere) (outcome : Outcome) → AreSummaries g.modules summaries → AreLegal g.modules → IsOutcome summaries hosts (elsewhere m.requests other) outcome → IsResolution g hosts m other outcome }
{}
