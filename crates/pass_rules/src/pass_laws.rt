//! What the passes of the back end leave of a core. Each law is the contract of a function that does nothing.

ghost use Rattle.pass_rules.specs.pass_laws.LawKept.{ScopesKeepLaw};
ghost use Rattle.pass_rules.specs.pass_laws.Kept.{MachinesKeepFaces, ScopesKeepFaces, YieldsKeepFaces};
ghost use Rattle.pass_rules.specs.pass_laws.Marks.{AllMakeNoMarks, MachinesMakeNoMarks, ScopesKeepMarks, YieldsKeepMarks};
ghost use Rattle.pass_rules.specs.pass_laws.Laws.{AllIsOut, LawfulYields, MachinesGoOut, NoScopesAreLeft, ScopesAreOut, ScopesGoOut, YieldsAreOut, YieldsGoOut};

/// Behind the flattening of scopes no function or part has a scope, a name of a handler's pattern or a copy of a binding,
/// whatever the core, and nothing that a pass takes out comes in.
pub fn no_scopes_are_left()
    ensures none { NoScopesAreLeft }
    ensures else_kept { ScopesGoOut }
{}

/// Behind the flattening of yields no expression has a yield or statements in it, if no such yield had parts, and nothing
/// else that a pass takes out comes in but yields as statements, where there were yields.
pub fn no_yields_are_left_in_expressions()
    ensures { YieldsGoOut }
{}

/// Behind the states of generators there are no yields, if there were but statements, and these in the bodies of generators
/// alone, and nothing that a pass takes out comes in.
pub fn no_yields_are_left()
    ensures { MachinesGoOut }
{}

/// A lawful core has yields in the bodies of generators alone, and those in expressions have no parts: what the passes ask.
pub fn lawful_cores_have_lawful_yields()
    ensures { LawfulYields }
{}

/// What each pass leaves of a lawful core, behind those before it: in the end no scopes, no copies, no statements in
/// expressions and no yields.
pub fn lawful_cores_are_flattened()
    ensures scopes { ScopesAreOut }
    ensures yields { YieldsAreOut }
    ensures all { AllIsOut }
{}

/// Each pass keeps the number of modules and the order of their evaluation, what functions are to others, at their numbers, and
/// names with their hints: new ones come behind them.
pub fn modules_functions_and_names_are_kept()
    ensures scopes { ScopesKeepFaces }
    ensures yields { YieldsKeepFaces }
    ensures machines { MachinesKeepFaces }
{}

/// As many calls carry a place behind the flattenings as before, in a lawful core, and behind the states of generators no
/// more, so none that they hadn't before the first pass.
pub fn marks_of_calls_are_kept()
    ensures scopes { ScopesKeepMarks }
    ensures yields { YieldsKeepMarks }
    ensures machines { MachinesMakeNoMarks }
    ensures all { AllMakeNoMarks }
{}

/// A lawful core is lawful behind the flattening of scopes, for as many hosts, if no operation was on the content of a cell
/// before: there are cells from that pass on.
pub fn lawful_cores_stay_lawful_without_scopes()
    ensures { ScopesKeepLaw }
{}
