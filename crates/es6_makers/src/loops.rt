//! The nodes of variables and of for statements.

ghost use Rattle.std.specs.Prelude.{[], ◌++◌, ◌∷◌, ◌≡◌, IfOk, List, OnOk};
ghost use Rattle.es6_ast.specs.declared.tree.ForFirst.TheVariants as first;
ghost use Rattle.es6_ast.specs.declared.tree.ForFirst.{ForFirst};
ghost use Rattle.es6_ast.specs.declared.tree.ForTarget.TheVariants as target;
ghost use Rattle.es6_ast.specs.declared.tree.ForTarget.{ForTarget};
ghost use Rattle.es6_ast.specs.declared.tree.Part.{Part};
ghost use Rattle.es6_ast.specs.declared.tree.Statement.TheVariants as stat;

use crate::patterns::{MakesBindings, MakesTargets};
use crate::readings::MakesOptionals;
use crate::statements::MakesSimpleStatements;
use es_text::Span;
use es6_ast::VariableKind;
use std::alloc::{AllocError, Global};

/// Makes variables (ECMA-262, 6th edition, 13.3).
pub trait MakesVariables: MakesBindings + MakesSimpleStatements {
    type Parts: Drop;

    ghost seen_parts: { Self.Parts → List Part };

    /// 13.3
    fn no_parts(alloc: Global) -> Self::Parts
        ensures { Self.seen_parts result ≡ [] };

    fn push_part(list: &mut Self::Parts, part: Self::Part) -> Result<(), AllocError>
        ensures { OnOk result (Self.seen_parts list.new ≡ Self.seen_parts list.old ++ Self.seen_part part ∷ []) };

    fn append_parts(list: &mut Self::Parts, more: Self::Parts) -> Result<(), AllocError>
        ensures { OnOk result (Self.seen_parts list.new ≡ Self.seen_parts list.old ++ Self.seen_parts more) };

    fn variables(span: Span, kind: VariableKind, parts: Self::Parts) -> Self::Statement
        ensures { Self.seen_statement result ≡ stat.Variables span kind (Self.seen_parts parts) };
}

/// Makes what stands in the parentheses of for statements (13.7.4, 13.7.5).
pub trait MakesForHeaders: MakesOptionals {
    type ForFirst: Drop;

    type ForTarget: Drop;

    ghost seen_first: { Self.ForFirst → ForFirst };

    ghost seen_target: { Self.ForTarget → ForTarget };

    /// 13.7.4
    fn no_first() -> Self::ForFirst
        ensures { Self.seen_first result ≡ first.NoFirst };

    fn first_expression(value: Self::Reading) -> Self::ForFirst
        ensures { Self.seen_first result ≡ first.FirstExpression (Self.seen value).value };
}

/// Makes headers that assign in turn (13.7.5).
pub trait MakesForAssignments: MakesForHeaders + MakesTargets {
    fn assigned(pattern: Self::Pattern) -> Self::ForTarget
        ensures { Self.seen_target result ≡ target.Assigned (Self.seen_pattern pattern) };
}

/// Makes headers that declare variables (13.7.4, 13.7.5).
pub trait MakesForVariables: MakesForHeaders + MakesVariables {
    fn first_variables(span: Span, kind: VariableKind, parts: Self::Parts) -> Self::ForFirst
        ensures { Self.seen_first result ≡ first.FirstVariables span kind (Self.seen_parts parts) };

    /// 13.7.5
    fn declared(span: Span, kind: VariableKind, pattern: Self::Pattern) -> Self::ForTarget
        ensures { Self.seen_target result ≡ target.Declared span kind (Self.seen_pattern pattern) };
}

/// Makes for statements of their headers (13.7.4, 13.7.5).
pub trait MakesLoops: MakesForHeaders + MakesSimpleStatements {
    fn for_statement(
        alloc: Global,
        span: Span,
        first: Self::ForFirst,
        test: Self::Optional,
        update: Self::Optional,
        body: Self::Statement,
    ) -> Result<Self::Statement, AllocError>
        ensures { IfOk result (λ made. Self.seen_statement made ≡ stat.For span (Self.seen_first first) (Self.seen_optional test) (Self.seen_optional update) (Self.seen_statement body)) };

    fn for_of(
        alloc: Global,
        span: Span,
        target: Self::ForTarget,
        subject: Self::Reading,
        body: Self::Statement,
    ) -> Result<Self::Statement, AllocError>
        ensures { IfOk result (λ made. Self.seen_statement made ≡ stat.ForOf span (Self.seen_target target) (Self.seen subject).value (Self.seen_statement body)) };
}

/// Makes for statements with all their parts.
pub trait MakesForStatements: MakesForAssignments + MakesForVariables + MakesLoops {}
