//! The trees of expressions.

use crate::Trees;
use es6_makers::{MakesAssignments, MakesExpressions};

impl MakesAssignments for Trees {}

impl MakesExpressions for Trees {}
