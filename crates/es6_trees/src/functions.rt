//! The trees of parameters, functions, methods and arrow functions (ECMA-262, 6th edition, 14.1 to 14.4).

ghost use Rattle.std.specs.Prelude.{◌≡◌};
ghost use Rattle.es6_ast.specs.Grammar.{is_generator_method};

use crate::boxes::boxed_beside;
use crate::reading::Reading;
use crate::{Trees, refining};
use es_text::Span;
use es6_ast::{
    Arrow, ArrowBody, Block, Expression, Function, Identifier, Key, Method, MethodKind, Parameter,
    Part, Pattern, Statement,
};
use es6_cursor::{Cursor, Halt};
use es6_makers::{
    MakesArrows, MakesFunctions, MakesMethods, MakesParameterLists, MakesParameters,
    MakesSignatures,
};
use sqlite_items::{Boxed, Items};
use std::alloc::{AllocError, Global};

impl MakesParameters for Trees {
    type Parameters = Items<Parameter>;

    ghost seen_parameters = { λ x. x };

    fn no_parameters(alloc: Global) -> Items<Parameter> {
        Items::new(alloc)
    }

    fn push_rest_parameter(
        list: &mut Items<Parameter>,
        span: Span,
        pattern: Pattern,
    ) -> Result<(), AllocError> {
        list.push(Parameter::RestParameter { span, pattern })
    }
}

impl MakesParameterLists for Trees {
    fn push_parameter(list: &mut Items<Parameter>, part: Part) -> Result<(), AllocError> {
        list.push(Parameter::SingleParameter(part))
    }
}

impl MakesSignatures for Trees {}

impl MakesFunctions for Trees {
    type Function = Function;

    ghost seen_function = { λ x. x };

    fn function(
        span: Span,
        is_generator: bool,
        name: Option<Identifier>,
        parameters: Items<Parameter>,
        body: Items<Statement>,
    ) -> Function {
        Function {
            span,
            is_generator,
            name,
            parameters,
            body,
        }
    }

    fn function_expression(alloc: Global, function: Function) -> Result<Reading, AllocError> {
        let function = Boxed::new(alloc, function)?;
        Ok(Reading::left(Expression::Function(function)))
    }

    fn function_declaration(alloc: Global, function: Function) -> Result<Statement, AllocError> {
        let function = Boxed::new(alloc, function)?;
        Ok(Statement::FunctionDeclaration(function))
    }
}

impl MakesMethods for Trees {
    type Method = Method;

    ghost seen_method = { λ x. x };

    fn method(
        alloc: Global,
        span: Span,
        kind: MethodKind,
        key: Key,
        from_parameters: Span,
        parameters: Items<Parameter>,
        body: Items<Statement>,
    ) -> Result<Method, AllocError> {
        let function = Function {
            span: from_parameters,
            is_generator: is_generator_method(kind),
            name: None,
            parameters,
            body,
        };
        let (function, key) = boxed_beside(alloc, function, key)?;
        Ok(Method {
            span,
            kind,
            key,
            function,
        })
    }
}

impl MakesArrows for Trees {
    fn is_misfit(head: &Reading) -> bool {
        refining::is_misfit(head)
    }

    fn arrow_parameters(cursor: &Cursor, head: Reading) -> Result<Items<Parameter>, Halt> {
        refining::arrow_parameters(cursor, head)
    }

    fn arrow_with_value(
        alloc: Global,
        span: Span,
        parameters: Items<Parameter>,
        value: Reading,
    ) -> Result<Reading, AllocError> {
        let (value, parameters) = boxed_beside(alloc, value.into_value(), parameters)?;
        let body = ArrowBody::ValueBody(value);
        let arrow = Boxed::new(
            alloc,
            Arrow {
                span,
                parameters,
                body,
            },
        )?;
        Ok(Reading::other(Expression::Arrow(arrow)))
    }

    fn arrow_with_block(
        alloc: Global,
        span: Span,
        parameters: Items<Parameter>,
        block: Block,
    ) -> Result<Reading, AllocError> {
        let body = ArrowBody::BlockBody(block);
        let arrow = Boxed::new(
            alloc,
            Arrow {
                span,
                parameters,
                body,
            },
        )?;
        Ok(Reading::other(Expression::Arrow(arrow)))
    }
}

fn is_generator_method(kind: MethodKind) -> bool
    ensures { result ≡ is_generator_method kind }
{
    match kind {
        MethodKind::GeneratorMethod => true,
        MethodKind::PlainMethod | MethodKind::GetterMethod | MethodKind::SetterMethod => false,
    }
}
