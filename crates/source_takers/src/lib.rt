//! What a step of a run of modules matches on, in small enums by area: nodes of the program, and pending work by what takes a completion.
#![tactic(auto)]

mod expression_nodes;
mod statement_nodes;
mod takers;
mod values;

pub use expression_nodes::{
    AccessNode, ClosureNode, ExpressionNode, OperatorNode, OtherNode, PrimaryNode, expression_node,
};
pub use statement_nodes::{JumpNode, LoopNode, SimpleNode, StatementNode, statement_node};
pub use takers::{
    BodyTaker, CallerTaker, EndTaker, ResumptionTaker, ScopeTaker, SlotTaker, Taker, TargetTaker,
};
pub use values::{
    AssignTaker, CallTaker, ClassTaker, GeneratorTaker, ListTaker, LiteralTaker, LoopTaker,
    OperatorTaker, PatternTaker, StatementTaker, ValueTaker,
};
