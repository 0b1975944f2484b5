//! Laws of what the lowering makes: of lawful parts, what is lawful. Each is the contract of a function that does nothing.
#![tactic(auto)]

ghost use Rattle.lowering_laws.specs.Bodies.{BegunAreLawful, ConciseAreLawful, DeclaredAreLawful, DefaultConstructorsAreLawful, GettersAreLawful, InstantiationKeepsLaw, KindsKeepLaw, NamedFunctionsAreLawful, NamespacesAreLawful, ParametersKeepLaw, PartsAreLawful, RunAreLawful, StatementsKeepLaw};
ghost use Rattle.lowering_laws.specs.Classes.{ClassesAreLawful, DefaultBodiesAreLawful, ObjectsAreLawful, ParametersAreLawful, SuperIsLawful, ThisIsLawful};
ghost use Rattle.lowering_laws.specs.Expressions.{CallsAreLawful, ConstructionsAreLawful, HostCallsAreLawful, ListsAreLawful, SpreadCallsAreLawful, SpreadHostCallsAreLawful, TagsAreLawful, TemplateObjectsAreLawful, TemplatesAreLawful};
ghost use Rattle.lowering_laws.specs.Operators.{ConditionsAreLawful, ConstantsAreLawful, EvaluationsAreLawful, OperatorsAreLawful, YieldsAreLawful};
ghost use Rattle.lowering_laws.specs.Patterns.{ArrayPatternsAreLawful, AssignedTargetsAreLawful, DeclaredTargetsAreLawful, MemberTargetsAreLawful, ObjectPatternsAreLawful};
ghost use Rattle.lowering_laws.specs.References.{AccessesAreLawful, AssignmentsAreLawful, CompoundsAreLawful, FoundAreLawful, FoundHostsAreCalled, MembersAreLawful, NewAreLawful, ReachedCallsAreLawful, ReachedTagsAreLawful, ReadsAreLawful, UpdatesAreLawful};
ghost use Rattle.lowering_laws.specs.Statements.{BlocksAreLawful, BranchesAreLawful, ChoicesAreLawful, DeclarationsAreLawful, DoWhileIsLawful, ForIsLawful, ForOfIsLawful, JumpsAreLawful, LabelledAreLawful, PlacesDiffer, ReturnsAreLawful, SwitchesAreLawful, TriesAreLawful, WhileIsLawful};

/// Templates and lists of lawful values are lawful.
pub fn lists_are_lawful()
    ensures templates { TemplatesAreLawful }
    ensures objects { TemplateObjectsAreLawful }
    ensures lists { ListsAreLawful }
{}

/// Calls of lawful functions with lawful arguments are lawful, and those of hosts, which alone have places.
pub fn calls_are_lawful()
    ensures calls { CallsAreLawful }
    ensures spread { SpreadCallsAreLawful }
    ensures hosts { HostCallsAreLawful }
    ensures spread_hosts { SpreadHostCallsAreLawful }
    ensures constructions { ConstructionsAreLawful }
    ensures tags { TagsAreLawful }
{}

/// Operations on lawful values are lawful; only where a generator's body stands round them, they yield.
pub fn operators_are_lawful()
    ensures constants { ConstantsAreLawful }
    ensures operators { OperatorsAreLawful }
    ensures conditions { ConditionsAreLawful }
    ensures yields { YieldsAreLawful }
    ensures evaluations { EvaluationsAreLawful }
{}

/// Statements of lawful parts are lawful.
pub fn statements_are_lawful()
    ensures blocks { BlocksAreLawful }
    ensures declarations { DeclarationsAreLawful }
    ensures jumps { JumpsAreLawful }
    ensures labelled { LabelledAreLawful }
    ensures branches { BranchesAreLawful }
    ensures choices { ChoicesAreLawful }
    ensures switches { SwitchesAreLawful }
    ensures returns { ReturnsAreLawful }
    ensures tries { TriesAreLawful }
{}

/// Loops of lawful parts are lawful.
pub fn loops_are_lawful()
    ensures while_loops { WhileIsLawful }
    ensures do_while { DoWhileIsLawful }
    ensures for_loops { ForIsLawful }
    ensures for_of { ForOfIsLawful }
{}

/// Patterns of lawful parts are lawful.
pub fn patterns_are_lawful()
    ensures declared { DeclaredTargetsAreLawful }
    ensures assigned { AssignedTargetsAreLawful }
    ensures members { MemberTargetsAreLawful }
    ensures objects { ObjectPatternsAreLawful }
    ensures arrays { ArrayPatternsAreLawful }
{}

/// What is done to what a lawful expression comes to is lawful, where the names are drawn that it draws.
pub fn references_are_lawful()
    ensures found { FoundAreLawful }
    ensures hosts { FoundHostsAreCalled }
    ensures accesses { AccessesAreLawful }
    ensures members { MembersAreLawful }
    ensures reads { ReadsAreLawful }
    ensures constructions { NewAreLawful }
    ensures assignments { AssignmentsAreLawful }
    ensures compounds { CompoundsAreLawful }
    ensures updates { UpdatesAreLawful }
    ensures calls { ReachedCallsAreLawful }
    ensures tags { ReachedTagsAreLawful }
{}

/// Object literals, classes, `super` and the binding of parameters are lawful, of lawful parts.
pub fn classes_are_lawful()
    ensures objects { ObjectsAreLawful }
    ensures this { ThisIsLawful }
    ensures inherited { SuperIsLawful }
    ensures bodies { DefaultBodiesAreLawful }
    ensures classes { ClassesAreLawful }
    ensures parameters { ParametersAreLawful }
{}

/// Functions, namespace objects and parts of modules are lawful, of lawful parts.
pub fn bodies_are_lawful()
    ensures begun { BegunAreLawful }
    ensures parameters { ParametersKeepLaw }
    ensures instantiated { InstantiationKeepsLaw }
    ensures statements { StatementsKeepLaw }
    ensures kinds { KindsKeepLaw }
    ensures defaults { DefaultConstructorsAreLawful }
    ensures concise { ConciseAreLawful }
    ensures getters { GettersAreLawful }
    ensures named { NamedFunctionsAreLawful }
    ensures run { RunAreLawful }
    ensures declared { DeclaredAreLawful }
    ensures namespaces { NamespacesAreLawful }
    ensures parts { PartsAreLawful }
{}

/// The labels of a place are those of no other place, and its two differ.
pub fn labels_of_places_differ()
    ensures { PlacesDiffer }
{}
