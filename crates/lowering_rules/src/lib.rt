//! What the lowering makes of each construct of modules, as functions on the trees of cores, in `specs/`, and the types that these
//! speak of. The builders stand in crates of their own.
#![tactic(auto)]

mod classes;
mod expressions;
mod functions;
mod naming;
mod patterns;
pub mod reference_rules;
pub mod statement_rules;

pub use classes::{ClassKey, ClassMember, ClassNames, MemberKind};
pub use expressions::{ListPart, TemplatePart};
pub use functions::{BodyVar, Parameter, ParameterScope, RestParameter};
pub use naming::{Iteration, Names};
pub use patterns::{
    ArrayPart, ForOf, MemberTarget, ObjectPart, PropertyName, Target, VariableTarget,
};
