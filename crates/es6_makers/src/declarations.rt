//! The nodes of statements and declarations.

use crate::classes::MakesClasses;
use crate::functions::MakesFunctions;
use crate::handlers::MakesCatches;
use crate::loops::{MakesForStatements, MakesVariables};
use crate::statements::{MakesCases, MakesConditions, MakesExpressionStatements, MakesReturns};

/// Makes declarations and returns (ECMA-262, 6th edition, 13.3, 13.10, 14).
pub trait MakesDeclarations: MakesFunctions
    + MakesClasses
    + MakesVariables
    + MakesReturns
    + MakesExpressionStatements {}

/// Makes the nodes of statements and declarations (13, 14).
pub trait MakesStatements: MakesDeclarations
    + MakesConditions
    + MakesCases
    + MakesForStatements
    + MakesCatches {}
