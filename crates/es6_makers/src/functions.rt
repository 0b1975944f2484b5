//! The nodes of parameters, functions, methods and arrow functions (ECMA-262, 6th edition, 14.1 to 14.4).

ghost use Rattle.std.specs.Prelude.{[], ◌++◌, ◌∷◌, ◌≡◌, IfOk, List, OnOk};
ghost use Rattle.es6_ast.specs.Grammar.{method_of};
ghost use Rattle.es6_ast.specs.declared.tree.Arrow.{roll-Arrow};
ghost use Rattle.es6_ast.specs.declared.tree.ArrowBody.TheVariants as body;
ghost use Rattle.es6_ast.specs.declared.tree.Expression.TheVariants as expr;
ghost use Rattle.es6_ast.specs.declared.tree.Function.{Function, roll-Function};
ghost use Rattle.es6_ast.specs.declared.tree.Method.{Method};
ghost use Rattle.es6_ast.specs.declared.tree.Parameter.TheVariants as parameter;
ghost use Rattle.es6_ast.specs.declared.tree.Parameter.{Parameter};
ghost use Rattle.es6_ast.specs.declared.tree.Statement.TheVariants as stat;
ghost use Rattle.es6_cursor.specs.Readers.{turns};
ghost use Rattle.es6_cursor.specs.Reads.{ReadsAs};
ghost use Rattle.es6_makers.specs.Misfits.{misfits};
ghost use Rattle.es6_reading.specs.Expressions.{fitting, left, other, parameters_before};

use crate::patterns::{MakesBindings, MakesPatterns};
use crate::readings::MakesReadings;
use crate::statements::{MakesBlocks, MakesStatementLists};
use es_text::Span;
use es6_ast::{Identifier, MethodKind};
use es6_cursor::{Cursor, Halt};
use std::alloc::{AllocError, Global};

/// Makes lists of parameters that are names.
pub trait MakesParameters: MakesPatterns {
    type Parameters: Drop;

    ghost seen_parameters: { Self.Parameters → List Parameter };

    /// 14.1
    fn no_parameters(alloc: Global) -> Self::Parameters
        ensures { Self.seen_parameters result ≡ [] };

    fn push_rest_parameter(
        list: &mut Self::Parameters,
        span: Span,
        pattern: Self::Pattern,
    ) -> Result<(), AllocError>
        ensures { OnOk result (Self.seen_parameters list.new ≡ Self.seen_parameters list.old ++ parameter.RestParameter span (Self.seen_pattern pattern) ∷ []) };
}

/// Makes lists of parameters of all kinds.
pub trait MakesParameterLists: MakesParameters + MakesBindings {
    fn push_parameter(list: &mut Self::Parameters, part: Self::Part) -> Result<(), AllocError>
        ensures { OnOk result (Self.seen_parameters list.new ≡ Self.seen_parameters list.old ++ parameter.SingleParameter (Self.seen_part part) ∷ []) };
}

/// Makes what functions and methods have after their names.
pub trait MakesSignatures: MakesParameterLists + MakesStatementLists {}

/// Makes functions, and the expressions and declarations that are functions.
pub trait MakesFunctions: MakesSignatures {
    type Function: Drop;

    ghost seen_function: { Self.Function → Function };

    /// 14.1, 14.4
    fn function(
        span: Span,
        is_generator: bool,
        name: Option<Identifier>,
        parameters: Self::Parameters,
        body: Self::Statements,
    ) -> Self::Function
        ensures { Self.seen_function result ≡ roll-Function (record { span = span; is_generator = is_generator; name = name; parameters = Self.seen_parameters parameters; body = Self.seen_statements body }) };

    /// 14.1, 14.4
    fn function_expression(
        alloc: Global,
        function: Self::Function,
    ) -> Result<Self::Reading, AllocError>
        ensures { IfOk result (λ made. Self.seen made ≡ left (expr.Function (Self.seen_function function))) };

    /// 14.1, 14.4
    fn function_declaration(
        alloc: Global,
        function: Self::Function,
    ) -> Result<Self::Statement, AllocError>
        ensures { IfOk result (λ made. Self.seen_statement made ≡ stat.FunctionDeclaration (Self.seen_function function)) };
}

/// Makes methods.
pub trait MakesMethods: MakesSignatures {
    type Method: Drop;

    ghost seen_method: { Self.Method → Method };

    /// A method, whose function begins at its parameters (14.3).
    fn method(
        alloc: Global,
        span: Span,
        kind: MethodKind,
        key: Self::Key,
        from_parameters: Span,
        parameters: Self::Parameters,
        body: Self::Statements,
    ) -> Result<Self::Method, AllocError>
        ensures { IfOk result (λ made. Self.seen_method made ≡ method_of span kind (Self.seen_key key) from_parameters (Self.seen_parameters parameters) (Self.seen_statements body)) };
}

/// Makes arrow functions (14.2).
pub trait MakesArrows: MakesReadings + MakesParameters + MakesBlocks {
    /// Whether what stands before `=>` is no parameters.
    fn is_misfit(head: &Self::Reading) -> bool
        ensures { result ≡ misfits (parameters_before turns (Self.seen head.now).shape (Self.seen head.now).value) };

    /// The parameters that stand before `=>`.
    fn arrow_parameters(cursor: &Cursor, head: Self::Reading) -> Result<Self::Parameters, Halt>
        ensures { ReadsAs Self.seen_parameters (fitting (parameters_before turns (Self.seen head).shape (Self.seen head).value) cursor.now) result cursor.now };

    /// An arrow function whose body is an expression (14.2).
    fn arrow_with_value(
        alloc: Global,
        span: Span,
        parameters: Self::Parameters,
        value: Self::Reading,
    ) -> Result<Self::Reading, AllocError>
        ensures { IfOk result (λ made. Self.seen made ≡ other (expr.Arrow (roll-Arrow (record { span = span; parameters = Self.seen_parameters parameters; body = body.ValueBody (Self.seen value).value })))) };

    /// An arrow function whose body is a block (14.2).
    fn arrow_with_block(
        alloc: Global,
        span: Span,
        parameters: Self::Parameters,
        block: Self::Block,
    ) -> Result<Self::Reading, AllocError>
        ensures { IfOk result (λ made. Self.seen made ≡ other (expr.Arrow (roll-Arrow (record { span = span; parameters = Self.seen_parameters parameters; body = body.BlockBody (Self.seen_block block) })))) };
}
