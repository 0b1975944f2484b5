//! The nodes of expressions.

use crate::classes::MakesClasses;
use crate::elements::MakesElements;
use crate::functions::{MakesArrows, MakesFunctions};
use crate::groups::MakesGroups;
use crate::links::MakesLinks;
use crate::operators::MakesOperators;
use crate::patterns::MakesTargets;
use crate::properties::MakesObjects;

/// Makes the nodes of assignments and arrow functions (ECMA-262, 6th edition, 12.14, 14.2).
pub trait MakesAssignments: MakesTargets + MakesArrows {}

/// Makes the nodes of expressions (ECMA-262, 6th edition, 12, 14.2).
pub trait MakesExpressions: MakesAssignments
    + MakesElements
    + MakesGroups
    + MakesLinks
    + MakesOperators
    + MakesObjects
    + MakesFunctions
    + MakesClasses {}
