//! What makes the nodes of modules (ECMA-262, 6th edition, 12 to 15).
//!
//! The readers of modules never see a node: they hand its parts to a maker, and keep what it gives. So their proofs don't reach
//! the tree, whose types all lead to one another. Each maker's clause says which node the contracts see in what it gives. A reader
//! asks for no more makers than it needs, since each type of a maker that it has weighs on its proof.
#![tactic(auto)]

mod arguments;
mod classes;
mod declarations;
mod elements;
mod expressions;
mod functions;
mod groups;
mod handlers;
mod items;
mod links;
mod loops;
mod operators;
mod patterns;
mod properties;
mod readings;
mod statements;
mod templates;

pub use arguments::MakesArguments;
pub use classes::{MakesClasses, MakesMembers};
pub use declarations::{MakesDeclarations, MakesStatements};
pub use elements::MakesElements;
pub use expressions::{MakesAssignments, MakesExpressions};
pub use functions::{
    MakesArrows, MakesFunctions, MakesMethods, MakesParameterLists, MakesParameters,
    MakesSignatures,
};
pub use groups::MakesGroups;
pub use handlers::{MakesCatches, MakesTries};
pub use items::{
    MakesClassExports, MakesExports, MakesFunctionExports, MakesItems, MakesModules,
    MakesStatementItems, MakesValueExports, MakesWholeModules,
};
pub use links::MakesLinks;
pub use loops::{
    MakesForAssignments, MakesForHeaders, MakesForStatements, MakesForVariables, MakesLoops,
    MakesVariables,
};
pub use operators::MakesOperators;
pub use patterns::{
    MakesArrayParts, MakesBindings, MakesKeys, MakesObjectParts, MakesParts, MakesPatterns,
    MakesTargets,
};
pub use properties::{MakesObjects, MakesProperties};
pub use readings::{MakesOptionals, MakesReadings};
pub use statements::{
    MakesBlocks, MakesCases, MakesConditions, MakesExpressionStatements, MakesReturns,
    MakesSimpleStatements, MakesStatementLists,
};
pub use templates::MakesTemplates;
