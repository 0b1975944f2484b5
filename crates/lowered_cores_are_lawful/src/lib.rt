//! That what modules are lowered to is lawful, construct by construct: laws, each the contract of a function that does nothing.
#![tactic(auto)]

ghost use Rattle.lowered_cores_are_lawful.specs.Expressions.{ArrayLaw, AssignmentLaw, BinaryLaw, CallLaw, CalledChainLaw, ChainLaw, ClassValueLaw, ClosedLaw, ConditionalLaw, DelegatedLaw, FunctionValueLaw, GroupedLaw, HoleLaw, HostCallLaw, IndexLaw, LiteralLaw, MemberLaw, NamedLaw, NewTargetLaw, NewValueLaw, ObjectLaw, OperandLaw, PowerLaw, ReachingLaw, SequenceLaw, SingleLaw, SpreadLaw, SuperCalledLaw, SuperIndexLaw, SuperMemberLaw, TaggedLaw, TemplateLaw, ThisLaw, UnaryLaw, UpdateLaw, ValueLaw, ValuedLaw, YieldedLaw};
ghost use Rattle.lowered_cores_are_lawful.specs.Patterns.{ArrayPatternLaw, ObjectPatternLaw, OneTargetLaw};
ghost use Rattle.lowered_cores_are_lawful.specs.Members.{ClassLaw, DefinedMemberLaw, ElementTakenLaw, PartLaw, PropertyTakenLaw, RestTakenLaw, ShorthandLaw, ValuedMemberLaw};
ghost use Rattle.lowered_cores_are_lawful.specs.Statements.{BlockLaw, ClassAtLaw, ConditionLaw, DeclaratorsLaw, DeclaringLaw, EvaluatedLaw, HoistedLaw, JumpingLaw, LabelledLaw, LabelledLoopLaw, ListedLaw, ReturningLaw, RunningLaw, ThrownLaw, WhileLaw};
ghost use Rattle.lowered_cores_are_lawful.specs.Flow.{DoWhileLaw, IfLaw, TryLaw};
ghost use Rattle.lowered_cores_are_lawful.specs.Loops.{ForLaw, ForOfLaw, SwitchLaw};
ghost use Rattle.lowered_cores_are_lawful.specs.Modules.{LoweredLaw};
ghost use Rattle.lowered_cores_are_lawful.specs.Functions.{ArrowMadeLaw, FunctionMadeLaw, GeneratorMadeLaw, ValueReturnedLaw};
ghost use Rattle.lowered_cores_are_lawful.specs.Bound.{BoundLaw};
ghost use Rattle.lowered_cores_are_lawful.specs.Fits.{FitLaw};

/// An expression is lowered to a lawful one, where its parts are.
pub fn expressions_are_lowered_to_lawful_ones()
    ensures reaching { ReachingLaw }
    ensures value { ValueLaw }
    ensures valued { ValuedLaw }
    ensures this_value { ThisLaw }
    ensures target { NewTargetLaw }
    ensures literal { LiteralLaw }
    ensures template { TemplateLaw }
    ensures single_part { SingleLaw }
    ensures spread_part { SpreadLaw }
    ensures hole { HoleLaw }
    ensures array { ArrayLaw }
    ensures member { MemberLaw }
    ensures index { IndexLaw }
    ensures call { CallLaw }
    ensures host_call { HostCallLaw }
    ensures tagged { TaggedLaw }
    ensures chain { ChainLaw }
    ensures called_chain { CalledChainLaw }
    ensures new_value { NewValueLaw }
    ensures super_member { SuperMemberLaw }
    ensures super_index { SuperIndexLaw }
    ensures super_called { SuperCalledLaw }
    ensures unary { UnaryLaw }
    ensures operand { OperandLaw }
    ensures binary { BinaryLaw }
    ensures power { PowerLaw }
    ensures conditional { ConditionalLaw }
    ensures sequence { SequenceLaw }
    ensures yielded { YieldedLaw }
    ensures delegated { DelegatedLaw }
    ensures update { UpdateLaw }
    ensures assignment { AssignmentLaw }
    ensures closed { ClosedLaw }
    ensures function_value { FunctionValueLaw }
    ensures class_value { ClassValueLaw }
    ensures object { ObjectLaw }
    ensures named { NamedLaw }
    ensures grouped { GroupedLaw }
{}

/// What a pattern with lawful parts makes of a value is lawful.
pub fn patterns_are_lowered_to_lawful_ones()
    ensures one_target { OneTargetLaw }
    ensures object_pattern { ObjectPatternLaw }
    ensures array_pattern { ArrayPatternLaw }
{}

/// Parts of patterns, members of object literals and classes are lowered to lawful ones, where their parts are.
pub fn members_are_lowered_to_lawful_ones()
    ensures part_with_default { PartLaw }
    ensures element_taken { ElementTakenLaw }
    ensures rest_taken { RestTakenLaw }
    ensures property_taken { PropertyTakenLaw }
    ensures valued_member { ValuedMemberLaw }
    ensures defined_member { DefinedMemberLaw }
    ensures shorthand { ShorthandLaw }
    ensures class_definition { ClassLaw }
{}

/// Statements of lawful parts are lowered to lawful ones; what jumps go to stands round them.
pub fn statements_are_lowered_to_lawful_ones()
    ensures listed { ListedLaw }
    ensures hoisted { HoistedLaw }
    ensures block_made { BlockLaw }
    ensures running { RunningLaw }
    ensures declaring { DeclaringLaw }
    ensures evaluated { EvaluatedLaw }
    ensures thrown { ThrownLaw }
    ensures returning { ReturningLaw }
    ensures declarators { DeclaratorsLaw }
    ensures class_at { ClassAtLaw }
    ensures jumping { JumpingLaw }
    ensures labelled_loop { LabelledLoopLaw }
    ensures labelled { LabelledLaw }
    ensures while_loop { WhileLaw }
    ensures condition { ConditionLaw }
{}

/// So are `do`, `if` and `try`.
pub fn choices_are_lowered_to_lawful_ones()
    ensures do_while { DoWhileLaw }
    ensures if_chain { IfLaw }
    ensures attempt { TryLaw }
{}

/// So are `for`, for-of and `switch`.
pub fn loops_are_lowered_to_lawful_ones()
    ensures for_loop { ForLaw }
    ensures for_of_loop { ForOfLaw }
    ensures choice { SwitchLaw }
{}

/// A graph whose modules have items that are lowered to lawful ones is lowered to lawful functions and parts.
pub fn graphs_are_lowered_to_lawful_ones()
    ensures lowered { LoweredLaw }
{}

/// A function of lawful parts is lawful in the table.
pub fn functions_are_lowered_to_lawful_ones()
    ensures function_made { FunctionMadeLaw }
    ensures generator_made { GeneratorMadeLaw }
    ensures arrow_made { ArrowMadeLaw }
    ensures value_returned { ValueReturnedLaw }
{}

/// What names declare and find are variables that the core begins with, where the scopes of its graph have them.
pub fn bindings_of_scopes_are_drawn()
    ensures { BoundLaw }
{}

/// An expression in which no function, class or object literal and no pattern with parts stands is lowered to a lawful one, if its tree fits.
pub fn fitting_expressions_are_lowered_to_lawful_ones()
    ensures { FitLaw }
{}
