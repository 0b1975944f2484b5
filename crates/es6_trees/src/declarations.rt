//! The trees of statements and declarations.

use crate::Trees;
use es6_makers::{MakesDeclarations, MakesStatements};

impl MakesDeclarations for Trees {}

impl MakesStatements for Trees {}
